// The numbered refusals of document 01, "Turned back".
#![tactic(auto)]

ghost use Rattle.std.specs.Prelude.{◌≡◌};
ghost use Rattle.refusals.specs.Numbers.{number_of};

// Why a call is refused: 1 to 11 because of the input, 12 to 14 because of the state, 15 and 16 because of a late condition, 17 because of
// texts that are not the tables', 18 to 20 because of a proof from another solver, 21 and 22 because of a game's variables, 23 because of a
// budget too large to be gone through whole, 24 because of planes, 25 to 27 because of a watch page.
#[derive(Clone, Copy, Debug, PartialEq, Eq)]
pub enum Refusal {
    // 1: n outside 1 to 32.
    Variables,
    // 2: a station's row count outside 1 to 128, or a public one above 128.
    RowCount,
    // 3: a row bit at or above n.
    RowBit,
    // 4: a row buffer shorter than 2 × rows words, or a plane buffer shorter than its squares.
    RowBuffer,
    // 5: malformed or overlong DIMACS text.
    Text,
    // 6: two of the three texts differ in n.
    TextsDiffer,
    // 7: a gate buffer below three words for each gate of the ceiling.
    GateBuffer,
    // 8: a malformed or overlong budget or dimension line.
    NumberLine,
    // 9: words that are no gates.
    Gates,
    // 10: a buffer of wires or of counts that is too short, or an input byte that is not 0 or 1.
    Wires,
    // 11: a text line longer than the lent bytes.
    LineBuffer,
    // 12: a state that is not well-formed.
    State,
    // 13: a state made for another n.
    OtherVariables,
    // 14: a model wanted while open or refuted.
    NoModel,
    // 15: a row that is no padding row of the station that would replace it.
    NotPadding,
    // 16: a row replaced while the run is closed.
    Closed,
    // 17: a row of neither station, or a text whose n or row count is not its table's.
    NoClause,
    // 18: malformed or overlong text of a proof, or more than 256 additions in it.
    ProofText,
    // 19: an addition of a proof that does not follow, up to the empty clause.
    NotFollowing,
    // 20: a proof that does not add the empty clause.
    NoEmptyClause,
    // 21: a game's n above 12.
    GameVariables,
    // 22: a variable on a game's lines twice or outside 1 to n.
    LineVariables,
    // 23: a budget above 65,535 of a run that goes through the whole of it.
    WholeBudget,
    // 24: a nonzero bit in the planes beyond the row count or beyond n.
    PlaneBits,
    // 25: pilots × watches is not n.
    WatchCount,
    // 26: a lent page shorter than 80 bytes a pilot.
    PageBuffer,
    // 27: bytes that are no watch page.
    PageForm,
}

// Document 01's number of a refusal.
impl From<Refusal> for u8 {
    ghost from_gives = { λ refusal number. number ≡ number_of refusal };

    fn from(refusal: Refusal) -> u8 {
        match refusal {
            Refusal::Variables => 1,
            Refusal::RowCount => 2,
            Refusal::RowBit => 3,
            Refusal::RowBuffer => 4,
            Refusal::Text => 5,
            Refusal::TextsDiffer => 6,
            Refusal::GateBuffer => 7,
            Refusal::NumberLine => 8,
            Refusal::Gates => 9,
            Refusal::Wires => 10,
            Refusal::LineBuffer => 11,
            Refusal::State => 12,
            Refusal::OtherVariables => 13,
            Refusal::NoModel => 14,
            Refusal::NotPadding => 15,
            Refusal::Closed => 16,
            Refusal::NoClause => 17,
            Refusal::ProofText => 18,
            Refusal::NotFollowing => 19,
            Refusal::NoEmptyClause => 20,
            Refusal::GameVariables => 21,
            Refusal::LineVariables => 22,
            Refusal::WholeBudget => 23,
            Refusal::PlaneBits => 24,
            Refusal::WatchCount => 25,
            Refusal::PageBuffer => 26,
            Refusal::PageForm => 27,
        }
    }
}
