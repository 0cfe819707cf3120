// The next state and the closing wire, the last wires of the circuit.
ghost use Rattle.std.specs.Prelude.{◌≡◌, ◌*◌, ◌≤◌};
ghost use Rattle.sections.specs.Addressing.{Small};
ghost use Rattle.sections.specs.Sections as Sections;

use crate::{Addresses, Section, cells};
use dimensions::Dimensions;

// The next T and F.
pub(crate) fn next_assignment(a: Addresses) -> Section
    requires { Small a }
    ensures { result ≡ Sections.next_assignment a }
{
    let n = a.n;
    Section {
        base: a.outputs,
        zeros: 0,
        template: cells::SUM,
        size: cells::SUM_SIZE,
        lanes: 2,
        cells: n,
        slots: [a.state, a.assignments + cells::CHANGE, 0, 0, 0, 0, 0, 0],
        outer: [n, cells::ASSIGNMENT_SIZE * n, 0, 0, 0, 0, 0, 0],
        inner: [1, cells::ASSIGNMENT_SIZE, 0, 0, 0, 0, 0, 0],
    }
}

// The next depth.
pub(crate) fn next_depth(a: Addresses) -> Section
    requires { Small a }
    ensures { result ≡ Sections.next_depth a }
{
    let n = a.n;
    Section {
        base: a.outputs + 2 * n,
        zeros: 0,
        template: cells::SUM,
        size: cells::SUM_SIZE,
        lanes: 1,
        cells: n + 1,
        slots: [a.state + 2 * n, a.depths, 0, 0, 0, 0, 0, 0],
        outer: [0; 8],
        inner: [1, 1, 0, 0, 0, 0, 0, 0],
    }
}

// Level l of the next state.
pub(crate) fn next_level(a: Addresses, l: u32) -> Section
    requires { Small a × (l ≤ 255) × (3 * a.n * l ≤ 195075) }
    ensures { result ≡ Sections.next_level a l }
{
    let n = a.n;
    Section {
        base: a.outputs + 3 * n + 1 + 3 * n * l,
        zeros: 0,
        template: cells::SUM,
        size: cells::SUM_SIZE,
        lanes: 3,
        cells: n,
        slots: [
            a.state + 3 * n + 1 + 3 * n * l,
            a.levels + cells::LEVEL_CHANGE + cells::LEVEL_SIZE * l,
            0,
            0,
            0,
            0,
            0,
            0,
        ],
        outer: [n, a.block, 0, 0, 0, 0, 0, 0],
        inner: [1, 1 + cells::LEVEL_SIZE * n, 0, 0, 0, 0, 0, 0],
    }
}

// The next standing, and the closing wire.
pub(crate) fn next_standing(a: Addresses) -> Section
    requires { Small a × (3 * a.n * a.n ≤ 195075) }
    ensures { result ≡ Sections.next_standing a }
{
    let next_state = Dimensions::state_wires_of(a.n as u8) as u32;
    let e = a.standing;
    let r = a.rule;
    Section {
        base: a.outputs + next_state - 2,
        zeros: 0,
        template: cells::STANDING,
        size: cells::STANDING_SIZE,
        lanes: 1,
        cells: 1,
        slots: [e, r + cells::DONE, e + 1, r + cells::REFUTE, 0, 0, 0, 0],
        outer: [0; 8],
        inner: [0; 8],
    }
}
