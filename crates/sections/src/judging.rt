// What the rows say: each row's literals, how many of them are free, and the row's rank.
ghost use Rattle.std.specs.Prelude.{◌≡◌};
ghost use Rattle.sections.specs.Addressing.{Small};
ghost use Rattle.sections.specs.Sections as Sections;

use crate::{Addresses, Section, cells};

// A gate that is 0.
pub(crate) fn zero_gate(a: Addresses) -> Section
    requires { Small a }
    ensures { result ≡ Sections.zero_gate a }
{
    Section {
        base: a.inputs,
        zeros: 0,
        template: cells::SUM,
        size: cells::SUM_SIZE,
        lanes: 1,
        cells: 1,
        slots: [0; 8],
        outer: [0; 8],
        inner: [0; 8],
    }
}

// Each row's literals.
pub(crate) fn literals(a: Addresses) -> Section
    requires { Small a }
    ensures { result ≡ Sections.literals a }
{
    let n = a.n;
    let b = a.literals;
    let size = cells::LITERAL_SIZE;
    let lane = 2 + size * n;
    Section {
        base: b,
        zeros: 2,
        template: cells::LITERAL,
        size,
        lanes: a.m,
        cells: n,
        slots: [0, n, a.state, a.state + n, b, b + cells::SIGN, 0, 0],
        outer: [2 * n, 2 * n, 0, 0, lane, lane, 0, 0],
        inner: [1, 1, 1, 1, size, size, 0, 0],
    }
}

// Whether a row has some free literal, and whether it has many.
pub(crate) fn counts(a: Addresses) -> Section
    requires { Small a }
    ensures { result ≡ Sections.counts a }
{
    let n = a.n;
    let b = a.counts;
    let size = cells::COUNT_SIZE;
    let lane = 2 + size * n;
    Section {
        base: b,
        zeros: 2,
        template: cells::COUNT,
        size,
        lanes: a.m,
        cells: n,
        slots: [a.literals + cells::FREE, b, b + cells::MANY, 0, 0, 0, 0, 0],
        outer: [2 + cells::LITERAL_SIZE * n, lane, lane, 0, 0, 0, 0, 0],
        inner: [cells::LITERAL_SIZE, size, size, 0, 0, 0, 0, 0],
    }
}

// Each row's rank.
pub(crate) fn ranks(a: Addresses) -> Section
    requires { Small a }
    ensures { result ≡ Sections.ranks a }
{
    let n = a.n;
    let satisfied = a.literals + cells::LITERAL_SIZE * n;
    let some = a.counts + cells::COUNT_SIZE * n;
    let lane = 2 + cells::COUNT_SIZE * n;
    Section {
        base: a.ranks,
        zeros: 0,
        template: cells::RANK,
        size: cells::RANK_SIZE,
        lanes: 1,
        cells: a.m,
        slots: [satisfied, some, some + cells::MANY, 0, 0, 0, 0, 0],
        outer: [0; 8],
        inner: [2 + cells::LITERAL_SIZE * n, lane, lane, 0, 0, 0, 0, 0],
    }
}
