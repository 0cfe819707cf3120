// The greatest key by a tree, the rule that applies, and the decoder of its variable's number.
ghost use Rattle.std.specs.Prelude.{◌≡◌};
ghost use Rattle.sections.specs.Addressing.{Small};
ghost use Rattle.sections.specs.Sections as Sections;

use crate::{Addresses, Section, cells, digits};

// The last row's key, which an odd number of rows leaves over.
pub(crate) fn bye(a: Addresses) -> Section
    requires { Small a }
    ensures { result ≡ Sections.bye a }
{
    Section {
        base: a.tree,
        zeros: 1,
        template: cells::BYE,
        size: cells::BYE_SIZE,
        lanes: 1,
        cells: 3 + a.b,
        slots: [a.keys + digits::less(a.m, 1), 0, 0, 0, 0, 0, 0, 0],
        outer: [0; 8],
        inner: [a.m, 0, 0, 0, 0, 0, 0, 0],
    }
}

// The lanes of two rows.
pub(crate) fn pairs(a: Addresses) -> Section
    requires { Small a }
    ensures { result ≡ Sections.pairs a }
{
    let lane = 1 + cells::NODE_SIZE * (3 + a.b);
    let b = a.tree + lane;
    Section {
        base: b,
        zeros: 1,
        template: cells::PAIR,
        size: cells::PAIR_SIZE,
        lanes: a.pairs,
        cells: 3 + a.b,
        slots: [a.keys, a.keys + 1, b, 0, 0, 0, 0, 0],
        outer: [2, 2, lane, 0, 0, 0, 0, 0],
        inner: [a.m, a.m, cells::PAIR_SIZE, 0, 0, 0, 0, 0],
    }
}

// The lanes of two lanes.
pub(crate) fn nodes(a: Addresses) -> Section
    requires { Small a }
    ensures { result ≡ Sections.nodes a }
{
    let digits = 3 + a.b;
    let lane = 1 + cells::NODE_SIZE * digits;
    let both = 2 * lane;
    let b = a.tree + lane + lane * a.pairs;
    let k = lane * a.skip;
    let next = lane * (1 + a.skip);
    let left = a.tree + cells::LEFT;
    let differs = a.tree + cells::DIFFERS;
    let keep = a.tree + cells::NODE_SIZE * digits;
    let size = cells::NODE_SIZE;
    Section {
        base: b,
        zeros: 1,
        template: cells::NODE,
        size,
        lanes: a.nodes,
        cells: digits,
        slots: [
            left + k,
            differs + k,
            keep + k,
            left + next,
            differs + next,
            keep + next,
            b,
            0,
        ],
        outer: [both, both, both, both, both, both, lane, 0],
        inner: [size, size, 0, size, size, 0, size, 0],
    }
}

// What the last lane keeps.
pub(crate) fn greatest(a: Addresses) -> Section
    requires { Small a }
    ensures { result ≡ Sections.greatest a }
{
    let lane = 1 + cells::NODE_SIZE * (3 + a.b);
    let k = a.pairs + a.nodes;
    let left = a.tree + cells::LEFT + lane * k;
    let differs = a.tree + cells::DIFFERS + lane * k;
    let keep = a.tree + cells::NODE_SIZE * (3 + a.b) + lane * k;
    Section {
        base: a.greatest,
        zeros: 0,
        template: cells::CHOICE,
        size: cells::CHOICE_SIZE,
        lanes: 1,
        cells: 3 + a.b,
        slots: [left, differs, keep, 0, 0, 0, 0, 0],
        outer: [0; 8],
        inner: [cells::NODE_SIZE, cells::NODE_SIZE, 0, 0, 0, 0, 0, 0],
    }
}

// The rule.
pub(crate) fn rule(a: Addresses) -> Section
    requires { Small a }
    ensures { result ≡ Sections.rule a }
{
    let e = a.standing;
    let sign = a.greatest + cells::KEPT;
    let low = sign + cells::CHOICE_SIZE * (1 + a.b);
    let high = sign + cells::CHOICE_SIZE * (2 + a.b);
    Section {
        base: a.rule,
        zeros: 0,
        template: cells::RULE,
        size: cells::RULE_SIZE,
        lanes: 1,
        cells: 1,
        slots: [e, e + 1, high, low, sign, a.state + 2 * a.n, 0, 0],
        outer: [0; 8],
        inner: [0; 8],
    }
}

// Whether a variable is set.
pub(crate) fn root(a: Addresses) -> Section
    requires { Small a }
    ensures { result ≡ Sections.root a }
{
    Section {
        base: a.rule + cells::RULE_SIZE,
        zeros: 0,
        template: cells::SUM,
        size: cells::SUM_SIZE,
        lanes: 1,
        cells: 1,
        slots: [a.rule + cells::ACT, a.inputs, 0, 0, 0, 0, 0, 0],
        outer: [0; 8],
        inner: [0; 8],
    }
}

// The nodes of d digits, split by the next, if there is such a digit.
pub(crate) fn split(a: Addresses, d: u32) -> Section
    requires { Small a }
    ensures { result ≡ Sections.if_digit a (Sections.split a) d }
{
    if a.b <= d {
        return crate::no_section(a);
    }
    let p = digits::power(d);
    let sign = a.greatest + cells::KEPT;
    let digit = sign + cells::CHOICE_SIZE * (1 + (a.b - (1 + d)));
    Section {
        base: a.rule + cells::DECODER + 2 * p,
        zeros: 0,
        template: cells::SPLIT,
        size: cells::SPLIT_SIZE,
        lanes: 1,
        cells: p,
        slots: [a.rule + cells::DECODER + p, digit, 0, 0, 0, 0, 0, 0],
        outer: [0; 8],
        inner: [1, 0, 0, 0, 0, 0, 0, 0],
    }
}
