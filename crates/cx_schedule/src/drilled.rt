//! The schedule of a drill.

ghost use Rattle.std.specs.Prelude.{ℕ, ◌≡◌, ◌≤◌, ◌+◌, ◌*◌, ◌%◌, ◌∷◌, [], ◌++◌, codes, map, replicate, IfOk, OnOk, string_bytes};
ghost use Rattle.std.specs.List.{flat_map};
ghost use Rattle.cx_schedule.specs.Drills.{client_line, clients_to, clock_line, connect_line, cut_line, drill_lines, drill_script, drill_text, ended, fetch_lines, login_line, round_lines, send_line};
ghost use Rattle.cx_schedule.specs.Files.{Lines};

use cx_base::Blob;
use std::alloc::{AllocError, Global};

/// The text of the schedule of a drill: `n` clients, from 1 to 1,000, and a daemon. Each client logs in, connects, sends none to
/// three operations, by its number and the seed, and goes.
pub fn drill(alloc: Global, n: u32, seed: u64) -> Result<Blob, AllocError>
    requires some { 1 ≤ n }
    requires few { n ≤ 1000 }
    ensures { IfOk result (λ text. text ≡ drill_text n seed) }
{
    let mut text = Blob::new(alloc);
    put_all(alloc, &mut text, n, seed)?;
    Ok(text)
}

fn put_all(alloc: Global, into: &mut Blob, n: u32, seed: u64) -> Result<(), AllocError>
    requires { n ≤ 1000 }
    ensures { OnOk result (into.new ≡ into.old ++ flat_map ended (drill_lines n seed)) }
{
    put_clients(alloc, into, n)?;
    put_behind(alloc, into, n, seed)
}

/// The daemon, and what the clients do.
fn put_behind(alloc: Global, into: &mut Blob, n: u32, seed: u64) -> Result<(), AllocError>
    requires { n ≤ 1000 }
    ensures { OnOk result (into.new ≡ into.old ++ flat_map ended (codes "entity osd.0" ∷ flat_map (round_lines seed) (clients_to n))) }
{
    put_daemon(alloc, into)?;
    put_rounds(alloc, into, n, seed)
}

fn put_daemon(alloc: Global, into: &mut Blob) -> Result<(), AllocError>
    ensures { OnOk result (into.new ≡ into.old ++ ended (codes "entity osd.0")) }
{
    put_line(alloc, into, b"entity osd.0")
}

fn put_clients(alloc: Global, into: &mut Blob, n: u32) -> Result<(), AllocError>
    requires { n ≤ 1000 }
    ensures { OnOk result (into.new ≡ into.old ++ flat_map ended (map client_line (clients_to n))) }
{
    for i in 0..n {
        put_client(alloc, into, i + 1)?;
    }
    Ok(())
}

fn put_client(alloc: Global, into: &mut Blob, i: u32) -> Result<(), AllocError>
    ensures { OnOk result (into.new ≡ into.old ++ ended (client_line i)) }
{
    let line = format!(in alloc; "entity client.{} osd \"allow *\"", i)?;
    put_line(alloc, into, line.as_bytes())
}

fn put_rounds(alloc: Global, into: &mut Blob, n: u32, seed: u64) -> Result<(), AllocError>
    requires { n ≤ 1000 }
    ensures { OnOk result (into.new ≡ into.old ++ flat_map ended (flat_map (round_lines seed) (clients_to n))) }
{
    for i in 0..n {
        put_round(alloc, into, i + 1, seed)?;
    }
    Ok(())
}

/// What one client does.
fn put_round(alloc: Global, into: &mut Blob, i: u32, seed: u64) -> Result<(), AllocError>
    requires some { 1 ≤ i }
    requires few { i ≤ 1000 }
    ensures { OnOk result (into.new ≡ into.old ++ flat_map ended (round_lines seed i)) }
{
    put_begin(alloc, into, i)?;
    put_session(alloc, into, i, seed)
}

/// All but its clock and a fetch.
fn put_session(alloc: Global, into: &mut Blob, i: u32, seed: u64) -> Result<(), AllocError>
    requires { i ≤ 1000 }
    ensures { OnOk result (into.new ≡ into.old ++ flat_map ended ((login_line i ∷ connect_line i ∷ replicate ((i + seed) % 4) (send_line i)) ++ (cut_line (2 * i) ∷ cut_line (2 * i + 1) ∷ []))) }
{
    put_work(alloc, into, i, seed)?;
    put_cuts(alloc, into, i)
}

/// Its clock, and a fetch.
fn put_begin(alloc: Global, into: &mut Blob, i: u32) -> Result<(), AllocError>
    requires some { 1 ≤ i }
    requires few { i ≤ 1000 }
    ensures { OnOk result (into.new ≡ into.old ++ flat_map ended (clock_line i ∷ fetch_lines i)) }
{
    let line = format!(in alloc; "clock {}", 1000 + 600 * i)?;
    put_line(alloc, into, line.as_bytes())?;
    put_fetch(alloc, into, i)
}

fn put_fetch(alloc: Global, into: &mut Blob, i: u32) -> Result<(), AllocError>
    requires { 1 ≤ i }
    ensures { OnOk result (into.new ≡ into.old ++ flat_map ended (fetch_lines i)) }
{
    if (i - 1) % 4 != 0 {
        return Ok(());
    }
    put_line(alloc, into, b"fetch osd.0")
}

/// Its login, its connection and what it sends.
fn put_work(alloc: Global, into: &mut Blob, i: u32, seed: u64) -> Result<(), AllocError>
    ensures { OnOk result (into.new ≡ into.old ++ flat_map ended (login_line i ∷ connect_line i ∷ replicate ((i + seed) % 4) (send_line i))) }
{
    put_login(alloc, into, i)?;
    put_connection(alloc, into, i, sends(i, seed))
}

fn put_login(alloc: Global, into: &mut Blob, i: u32) -> Result<(), AllocError>
    ensures { OnOk result (into.new ≡ into.old ++ ended (login_line i)) }
{
    let line = format!(in alloc; "login client.{} osd", i)?;
    put_line(alloc, into, line.as_bytes())
}

fn put_connection(alloc: Global, into: &mut Blob, i: u32, count: u64) -> Result<(), AllocError>
    ensures { OnOk result (into.new ≡ into.old ++ flat_map ended (connect_line i ∷ replicate count (send_line i))) }
{
    put_connect(alloc, into, i)?;
    put_sends(alloc, into, i, count)
}

fn put_connect(alloc: Global, into: &mut Blob, i: u32) -> Result<(), AllocError>
    ensures { OnOk result (into.new ≡ into.old ++ ended (connect_line i)) }
{
    let line = format!(in alloc; "connect client.{} osd.0", i)?;
    put_line(alloc, into, line.as_bytes())
}

/// How many operations a client sends.
fn sends(i: u32, seed: u64) -> u64
    ensures { result ≡ (i + seed) % 4 }
{
    (u64::from(i % 4) + seed % 4) % 4
}

fn put_sends(alloc: Global, into: &mut Blob, i: u32, count: u64) -> Result<(), AllocError>
    ensures { OnOk result (into.new ≡ into.old ++ flat_map ended (replicate count (send_line i))) }
{
    'sends: for _sent in 0..count {
        put_send(alloc, into, i)?;
    }
    Ok(())
}

fn put_send(alloc: Global, into: &mut Blob, i: u32) -> Result<(), AllocError>
    ensures { OnOk result (into.new ≡ into.old ++ ended (send_line i)) }
{
    let line = format!(in alloc; "send client.{} osd.0 write rbd - o -", i)?;
    put_line(alloc, into, line.as_bytes())
}

/// Both of its links are cut.
fn put_cuts(alloc: Global, into: &mut Blob, i: u32) -> Result<(), AllocError>
    requires { i ≤ 1000 }
    ensures { OnOk result (into.new ≡ into.old ++ flat_map ended (cut_line (2 * i) ∷ cut_line (2 * i + 1) ∷ [])) }
{
    put_cut(alloc, into, 2 * i)?;
    put_cut(alloc, into, 2 * i + 1)
}

fn put_cut(alloc: Global, into: &mut Blob, link: u32) -> Result<(), AllocError>
    ensures { OnOk result (into.new ≡ into.old ++ ended (cut_line link)) }
{
    let line = format!(in alloc; "cut {}", link)?;
    put_line(alloc, into, line.as_bytes())
}

/// The text of a drill is a schedule, and `read` reads it as these lines. It does nothing: its clause is the law.
pub fn drill_law()
    ensures { (n seed : ℕ) → 1 ≤ n → n ≤ 1000 → Lines (drill_text n seed) (drill_script n seed) }
{}

/// Puts a line behind the text, ended by LF.
fn put_line(alloc: Global, into: &mut Blob, line: &[u8]) -> Result<(), AllocError>
    ensures { OnOk result (into.new ≡ into.old ++ ended line.now) }
{
    into.append(alloc, line)?;
    into.append(alloc, b"\n")
}
