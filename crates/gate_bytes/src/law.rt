ghost use Rattle.gate_bytes.specs.Laws.{NumbersAreRead, SignedNumbersAreRead, CountsAreRead, CountsStandApart};

/// That a number is read exactly if the bytes begin with its own bytes, the lowest first.
pub fn numbers_are_read()
    ensures plain { NumbersAreRead }
    ensures signed { SignedNumbersAreRead }
{}

/// That a count has one text: it is read exactly if the bytes begin with its text, and no text
/// begins a different one.
pub fn counts_are_read()
    ensures read { CountsAreRead }
    ensures apart { CountsStandApart }
{}
