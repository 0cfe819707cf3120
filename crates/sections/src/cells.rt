// The cells in numbers, those of `specs/Cells`: where a template's gates begin among all templates' gates and how many there are, and where
// in a lane or a cell the wires are that another section takes.

pub(crate) const SUM: u32 = 0;

pub(crate) const SUM_SIZE: u32 = 1;

pub(crate) const LITERAL: u32 = SUM + SUM_SIZE;

pub(crate) const LITERAL_SIZE: u32 = 12;

pub(crate) const COUNT: u32 = LITERAL + LITERAL_SIZE;

pub(crate) const COUNT_SIZE: u32 = 6;

pub(crate) const RANK: u32 = COUNT + COUNT_SIZE;

pub(crate) const RANK_SIZE: u32 = 5;

pub(crate) const BYE: u32 = RANK + RANK_SIZE;

pub(crate) const BYE_SIZE: u32 = 8;

pub(crate) const PAIR: u32 = BYE + BYE_SIZE;

pub(crate) const PAIR_SIZE: u32 = 8;

pub(crate) const NODE: u32 = PAIR + PAIR_SIZE;

pub(crate) const NODE_SIZE: u32 = 8;

pub(crate) const CHOICE: u32 = NODE + NODE_SIZE;

pub(crate) const CHOICE_SIZE: u32 = 2;

pub(crate) const RULE: u32 = CHOICE + CHOICE_SIZE;

pub(crate) const RULE_SIZE: u32 = 13;

pub(crate) const SPLIT: u32 = RULE + RULE_SIZE;

pub(crate) const SPLIT_SIZE: u32 = 2;

pub(crate) const TARGET: u32 = SPLIT + SPLIT_SIZE;

pub(crate) const TARGET_SIZE: u32 = 3;

pub(crate) const GUARD: u32 = TARGET + TARGET_SIZE;

pub(crate) const GUARD_SIZE: u32 = 2;

pub(crate) const SELECT: u32 = GUARD + GUARD_SIZE;

pub(crate) const SELECT_SIZE: u32 = 3;

pub(crate) const LEVEL: u32 = SELECT + SELECT_SIZE;

pub(crate) const LEVEL_SIZE: u32 = 3;

pub(crate) const ASSIGNMENT: u32 = LEVEL + LEVEL_SIZE;

pub(crate) const ASSIGNMENT_SIZE: u32 = 5;

pub(crate) const STANDING: u32 = ASSIGNMENT + ASSIGNMENT_SIZE;

pub(crate) const STANDING_SIZE: u32 = 3;

// Of a lane of literals: the sign of the one free literal.
pub(crate) const SIGN: u32 = 1;

// A free literal, gate 8 after two zeros.
pub(crate) const FREE: u32 = 2 + 8;

// Of a lane of counts: whether there are many free literals.
pub(crate) const MANY: u32 = 1;

// Of a lane of the tree: the left item, gate 1 after a zero.
pub(crate) const LEFT: u32 = 1 + 1;

// Where the two items differ, gate 4.
pub(crate) const DIFFERS: u32 = 1 + 4;

// Of a lane of a level's wires: the change, gate 1 after a zero.
pub(crate) const LEVEL_CHANGE: u32 = 1 + 1;

// Of a rank: its high digit.
pub(crate) const HIGH: u32 = 2;

// Its low digit.
pub(crate) const LOW: u32 = 4;

// Of a choice: what is kept.
pub(crate) const KEPT: u32 = 1;

// Of the rule: a level is pushed.
pub(crate) const PUSH: u32 = 6;

// The run is satisfied.
pub(crate) const DONE: u32 = 7;

// The run is refuted.
pub(crate) const REFUTE: u32 = 8;

// A level is popped.
pub(crate) const POP: u32 = 9;

// A variable is set.
pub(crate) const ACT: u32 = 10;

// It goes to F.
pub(crate) const SET_F: u32 = 12;

// Node g of the decoder is wire `DECODER` + g of the rule's.
pub(crate) const DECODER: u32 = 12;

// Of a target: whether the variable is pushed.
pub(crate) const PUSHED: u32 = 1;

// Whether it goes to T.
pub(crate) const SETS_T: u32 = 2;

// Of a guard: what a push saves.
pub(crate) const SAVED: u32 = 1;

// Of an assignment: the change.
pub(crate) const CHANGE: u32 = 4;
