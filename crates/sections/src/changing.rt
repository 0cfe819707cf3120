// What changes in levels, T and F, and depth.
ghost use Rattle.std.specs.Prelude.{◌≡◌};
ghost use Rattle.sections.specs.Addressing.{Small};
ghost use Rattle.sections.specs.Sections as Sections;

use crate::{Addresses, Section, cells};

// A level's T.
pub(crate) fn levels_t(a: Addresses) -> Section
    requires { Small a }
    ensures { result ≡ Sections.levels_t a }
{
    levels(
        a,
        a.levels,
        a.state + 3 * a.n + 1,
        a.guards + cells::SAVED,
        cells::GUARD_SIZE,
    )
}

// A level's F.
pub(crate) fn levels_f(a: Addresses) -> Section
    requires { Small a }
    ensures { result ≡ Sections.levels_f a }
{
    levels(
        a,
        a.levels + a.block,
        a.state + 3 * a.n + 1 + a.n,
        a.guards + cells::GUARD_SIZE * a.n + cells::SAVED,
        cells::GUARD_SIZE,
    )
}

// A level's chosen variable.
pub(crate) fn levels_v(a: Addresses) -> Section
    requires { Small a }
    ensures { result ≡ Sections.levels_v a }
{
    levels(
        a,
        a.levels + 2 * a.block,
        a.state + 3 * a.n + 1 + 2 * a.n,
        a.targets + cells::PUSHED,
        cells::TARGET_SIZE,
    )
}

// One of a level's three sets of wires, from wire x at level 0; what is pushed comes from u on, s apart.
fn levels(a: Addresses, b: u32, x: u32, u: u32, s: u32) -> Section
    requires { Small a }
    ensures { result ≡ Sections.levels a b x u s }
{
    let n = a.n;
    Section {
        base: b,
        zeros: 1,
        template: cells::LEVEL,
        size: cells::LEVEL_SIZE,
        lanes: n,
        cells: n,
        slots: [a.selects + cells::SELECT_SIZE, x, u, b, 0, 0, 0, 0],
        outer: [0, 1, s, 1 + cells::LEVEL_SIZE * n, 0, 0, 0, 0],
        inner: [cells::SELECT_SIZE, 3 * n, 0, cells::LEVEL_SIZE, 0, 0, 0, 0],
    }
}

// The change of T.
pub(crate) fn assign_t(a: Addresses) -> Section
    requires { Small a }
    ensures { result ≡ Sections.assign_t a }
{
    let n = a.n;
    let guards = a.guards;
    let back = a.levels + cells::LEVEL_SIZE * n;
    let lane = 1 + cells::LEVEL_SIZE * n;
    let guard = cells::GUARD_SIZE;
    Section {
        base: a.assignments,
        zeros: 0,
        template: cells::ASSIGNMENT,
        size: cells::ASSIGNMENT_SIZE,
        lanes: 1,
        cells: n,
        slots: [
            guards,
            back,
            guards + cells::SAVED,
            a.targets + cells::SETS_T,
            a.inputs,
            a.inputs,
            0,
            0,
        ],
        outer: [0; 8],
        inner: [guard, lane, guard, cells::TARGET_SIZE, 0, 0, 0, 0],
    }
}

// The change of F.
pub(crate) fn assign_f(a: Addresses) -> Section
    requires { Small a }
    ensures { result ≡ Sections.assign_f a }
{
    let n = a.n;
    let guards = a.guards + cells::GUARD_SIZE * n;
    let back = a.levels + a.block + cells::LEVEL_SIZE * n;
    let chosen = a.levels + 2 * a.block + cells::LEVEL_SIZE * n;
    let lane = 1 + cells::LEVEL_SIZE * n;
    let guard = cells::GUARD_SIZE;
    let target = cells::TARGET_SIZE;
    Section {
        base: a.assignments + cells::ASSIGNMENT_SIZE * n,
        zeros: 0,
        template: cells::ASSIGNMENT,
        size: cells::ASSIGNMENT_SIZE,
        lanes: 1,
        cells: n,
        slots: [
            guards,
            back,
            guards + cells::SAVED,
            chosen,
            a.targets + cells::PUSHED,
            a.targets,
            0,
            0,
        ],
        outer: [0; 8],
        inner: [guard, lane, guard, lane, target, target, 0, 0],
    }
}

// The change of the depth.
pub(crate) fn depths(a: Addresses) -> Section
    requires { Small a }
    ensures { result ≡ Sections.depths a }
{
    Section {
        base: a.depths,
        zeros: 0,
        template: cells::SUM,
        size: cells::SUM_SIZE,
        lanes: 1,
        cells: a.n + 1,
        slots: [a.selects, a.selects + cells::SELECT_SIZE, 0, 0, 0, 0, 0, 0],
        outer: [0; 8],
        inner: [cells::SELECT_SIZE, cells::SELECT_SIZE, 0, 0, 0, 0, 0, 0],
    }
}
