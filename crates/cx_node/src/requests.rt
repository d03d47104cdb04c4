//! AUTH_REQUEST, at an acceptor.

ghost use Rattle.std.specs.Prelude.{◌≡◌, ◌==◌};
ghost use Rattle.std.specs.List.{list_any};
ghost use Rattle.cx_node.specs.steps.Requests.{request_fault};

use cx_control::AuthRequest;
use cx_journal::LoginFault;

/// What is wrong with an AUTH_REQUEST, if anything, before its payload is looked at: the method has to be 2, cephx, and 2, the secure mode, among
/// the modes.
pub fn request_fault(request: &AuthRequest) -> Option<LoginFault>
    ensures { result ≡ request_fault request.now }
{
    if request.method != 2 {
        Some(LoginFault::Method)
    } else if !offers_secure(request.modes.all()) {
        Some(LoginFault::Mode)
    } else {
        None
    }
}

fn offers_secure(modes: &[u32]) -> bool
    ensures { result ≡ list_any (λ mode. mode == 2) modes.now }
{
    modes.iter().any(|mode| *mode == 2)
}
