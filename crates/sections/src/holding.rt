// What the rule does to variables, state and levels.
ghost use Rattle.std.specs.Prelude.{◌≡◌};
ghost use Rattle.sections.specs.Addressing.{Small};
ghost use Rattle.sections.specs.Sections as Sections;

use crate::{Addresses, Section, cells, digits};

// Whether a variable goes to F, is pushed, goes to T.
pub(crate) fn targets(a: Addresses) -> Section
    requires { Small a }
    ensures { result ≡ Sections.targets a }
{
    let p = digits::power(a.b);
    let leaf = a.rule + cells::DECODER + p + digits::less(p, a.n);
    Section {
        base: a.targets,
        zeros: 0,
        template: cells::TARGET,
        size: cells::TARGET_SIZE,
        lanes: 1,
        cells: a.n,
        slots: [
            leaf,
            a.rule + cells::SET_F,
            a.rule + cells::PUSH,
            0,
            0,
            0,
            0,
            0,
        ],
        outer: [0; 8],
        inner: [1, 0, 0, 0, 0, 0, 0, 0],
    }
}

// T and F where a pop or a push applies.
pub(crate) fn guards(a: Addresses) -> Section
    requires { Small a }
    ensures { result ≡ Sections.guards a }
{
    Section {
        base: a.guards,
        zeros: 0,
        template: cells::GUARD,
        size: cells::GUARD_SIZE,
        lanes: 2,
        cells: a.n,
        slots: [
            a.state,
            a.rule + cells::POP,
            a.rule + cells::PUSH,
            0,
            0,
            0,
            0,
            0,
        ],
        outer: [a.n, 0, 0, 0, 0, 0, 0, 0],
        inner: [1, 0, 0, 0, 0, 0, 0, 0],
    }
}

// Whether each level changes, after a zero.
pub(crate) fn selects(a: Addresses) -> Section
    requires { Small a }
    ensures { result ≡ Sections.selects a }
{
    let d = a.state + 2 * a.n;
    let r = a.rule;
    Section {
        base: a.selects,
        zeros: 1,
        template: cells::SELECT,
        size: cells::SELECT_SIZE,
        lanes: 1,
        cells: a.n,
        slots: [r + cells::PUSH, d + 1, r + cells::POP, d, 0, 0, 0, 0],
        outer: [0; 8],
        inner: [0, 1, 0, 1, 0, 0, 0, 0],
    }
}

// Zeros after them.
pub(crate) fn select_end(a: Addresses) -> Section
    requires { Small a }
    ensures { result ≡ Sections.select_end a }
{
    Section {
        base: a.selects + 1 + cells::SELECT_SIZE * a.n,
        zeros: 0,
        template: cells::SUM,
        size: cells::SUM_SIZE,
        lanes: 1,
        cells: 3,
        slots: [0; 8],
        outer: [0; 8],
        inner: [0; 8],
    }
}
