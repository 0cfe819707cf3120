// The rows' keys, a digit at a time: the sign of a row's one free literal, the digits of its lowest free variable, and its rank.
ghost use Rattle.std.specs.Prelude.{◌≡◌};
ghost use Rattle.sections.specs.Addressing.{Small};
ghost use Rattle.sections.specs.Sections as Sections;

use crate::{Addresses, Section, cells, digits};

// The digit of weight 2 to the power d of each row's lowest free variable, if there is such a digit.
pub(crate) fn digit(a: Addresses, d: u32) -> Section
    requires { Small a }
    ensures { result ≡ Sections.if_digit a (Sections.digit a) d }
{
    if a.b <= d {
        return crate::no_section(a);
    }
    let p = digits::power(d);
    let k = digits::thresholds(a.n, d);
    let at = a.digits + digits::digits_to(a.n, a.m, d);
    Section {
        base: at,
        zeros: 1,
        template: cells::SUM,
        size: cells::SUM_SIZE,
        lanes: a.m,
        cells: k,
        slots: [
            a.counts + cells::COUNT_SIZE * (a.n - p * k),
            at,
            0,
            0,
            0,
            0,
            0,
            0,
        ],
        outer: [2 + cells::COUNT_SIZE * a.n, 1 + k, 0, 0, 0, 0, 0, 0],
        inner: [cells::COUNT_SIZE * p, 1, 0, 0, 0, 0, 0, 0],
    }
}

// The sign of a row's one free literal.
pub(crate) fn key_sign(a: Addresses) -> Section
    requires { Small a }
    ensures { result ≡ Sections.key_sign a }
{
    let satisfied = a.literals + cells::LITERAL_SIZE * a.n;
    Section {
        base: a.keys,
        zeros: 0,
        template: cells::SUM,
        size: cells::SUM_SIZE,
        lanes: 1,
        cells: a.m,
        slots: [satisfied + cells::SIGN, a.inputs, 0, 0, 0, 0, 0, 0],
        outer: [0; 8],
        inner: [2 + cells::LITERAL_SIZE * a.n, 0, 0, 0, 0, 0, 0, 0],
    }
}

// Digit d of its lowest free variable, if there is such a digit.
pub(crate) fn key_digit(a: Addresses, d: u32) -> Section
    requires { Small a }
    ensures { result ≡ Sections.if_digit a (Sections.key_digit a) d }
{
    if a.b <= d {
        return crate::no_section(a);
    }
    let k = digits::thresholds(a.n, d);
    let at = a.digits + digits::digits_to(a.n, a.m, d);
    Section {
        base: a.keys + a.m * (1 + d),
        zeros: 0,
        template: cells::SUM,
        size: cells::SUM_SIZE,
        lanes: 1,
        cells: a.m,
        slots: [at + k, a.inputs, 0, 0, 0, 0, 0, 0],
        outer: [0; 8],
        inner: [1 + k, 0, 0, 0, 0, 0, 0, 0],
    }
}

// The low digit of its rank.
pub(crate) fn key_low(a: Addresses) -> Section
    requires { Small a }
    ensures { result ≡ Sections.key_low a }
{
    Section {
        base: a.keys + a.m * (1 + a.b),
        zeros: 0,
        template: cells::SUM,
        size: cells::SUM_SIZE,
        lanes: 1,
        cells: a.m,
        slots: [a.ranks + cells::LOW, a.inputs, 0, 0, 0, 0, 0, 0],
        outer: [0; 8],
        inner: [cells::RANK_SIZE, 0, 0, 0, 0, 0, 0, 0],
    }
}

// The high digit of its rank.
pub(crate) fn key_high(a: Addresses) -> Section
    requires { Small a }
    ensures { result ≡ Sections.key_high a }
{
    Section {
        base: a.keys + a.m * (2 + a.b),
        zeros: 0,
        template: cells::SUM,
        size: cells::SUM_SIZE,
        lanes: 1,
        cells: a.m,
        slots: [a.ranks + cells::HIGH, a.inputs, 0, 0, 0, 0, 0, 0],
        outer: [0; 8],
        inner: [cells::RANK_SIZE, 0, 0, 0, 0, 0, 0, 0],
    }
}
