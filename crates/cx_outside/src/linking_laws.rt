//! The laws of links in memory.

ghost use Rattle.cx_outside.specs.linking.Laws.{AreNumbered, AreTaken, ComeInOrder, ComeOnLiving};

/// On each path of new links in memory the n-th link has the number n; the bytes that come are those of the script, in order;
/// what is sent is taken, within the room; and what comes, comes on links that live.
pub fn script_laws()
    ensures numbers { AreNumbered }
    ensures bytes { ComeInOrder }
    ensures taken { AreTaken }
    ensures living { ComeOnLiving }
{}
