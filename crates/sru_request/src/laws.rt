//! What is true of the octets of a connection, whatever reads them. These functions do nothing; what
//! they ensure is the law.

ghost use Rattle.std.specs.Prelude.{ℕ, List};
ghost use Rattle.sru_request.specs.Laws.{HeadStays};

/// What is answered to octets of which no more are needed stays whatever follows them.
pub fn head_stays()
    ensures { (octets : List ℕ) → HeadStays octets }
{}
