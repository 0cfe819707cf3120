// The numbers of the circuit's sections: where each begins, how many cells it has, and to which wires the slots of its cells go. `netlist`
// says which gates these are.
#![tactic(auto)]

mod cells;
mod changing;
mod choosing;
mod digits;
mod holding;
mod judging;
mod outputs;
mod weighing;

ghost use Rattle.std.specs.Prelude.{◌≡◌, ◌+◌, ◌*◌, ◌≤◌, ◌<◌, get_or};
ghost use Rattle.sections.specs.Addressing.{reading_of, acting_of, addresses_of, addresses_on, Small};
ghost use Rattle.sections.specs.Sections as Sections;

use dimensions::Dimensions;

// Where the state, its standing and each section begin, for n variables and m rows, and how many wires there are. A variable's number has b
// digits. The tree has `pairs` lanes of two rows and `nodes` lanes of two lanes, the first of which takes lane `skip` and the next. A block
// is all cells of one of a level's three sets of wires.
#[derive(Clone, Copy)]
pub struct Addresses {
    pub n: u32,
    pub m: u32,
    pub b: u32,
    pub pairs: u32,
    pub nodes: u32,
    pub skip: u32,
    pub state: u32,
    pub standing: u32,
    pub inputs: u32,
    pub literals: u32,
    pub counts: u32,
    pub ranks: u32,
    pub digits: u32,
    pub keys: u32,
    pub tree: u32,
    pub greatest: u32,
    pub rule: u32,
    pub targets: u32,
    pub guards: u32,
    pub selects: u32,
    pub levels: u32,
    pub block: u32,
    pub assignments: u32,
    pub depths: u32,
    pub outputs: u32,
    pub wires: u32,
}

// Those of the sections that read the rows and find the greatest key.
#[derive(Clone, Copy)]
struct ReadingAddresses {
    pairs: u32,
    nodes: u32,
    literals: u32,
    counts: u32,
    ranks: u32,
    digits: u32,
    keys: u32,
    tree: u32,
    greatest: u32,
}

// Those of the sections that act on it.
#[derive(Clone, Copy)]
struct ActingAddresses {
    rule: u32,
    targets: u32,
    guards: u32,
    selects: u32,
    levels: u32,
    block: u32,
    assignments: u32,
    depths: u32,
    outputs: u32,
}

// Lanes of cells, before each lane some gates that are 0. A cell has `size` gates of all templates' gates, from gate `template` on. Its
// slots move on from lane to lane by `outer`, from cell to cell by `inner`.
#[derive(Clone, Copy)]
pub struct Section {
    pub base: u32,
    pub zeros: u32,
    pub template: u32,
    pub size: u32,
    pub lanes: u32,
    pub cells: u32,
    pub slots: [u32; 8],
    pub outer: [u32; 8],
    pub inner: [u32; 8],
}

impl Addresses {
    // The addresses for these dimensions.
    pub fn of(d: Dimensions) -> Addresses
        ensures { result ≡ addresses_on d }
    {
        let n = d.n as u32;
        let m = d.left as u32 + d.right as u32 + d.public as u32;
        layout(n, m, digits::digits_for(n))
    }
}

// The same, for b digits of a variable's number.
fn layout(n: u32, m: u32, b: u32) -> Addresses
    requires { (n ≤ 255) × (m ≤ 765) × (b ≤ 5) × (n * m ≤ 195075) × (n * n ≤ 65025) × (m * b ≤ 3825) }
    ensures { result ≡ addresses_of n m b }
{
    let state = 2 * (n * m);
    let state_wires = Dimensions::state_wires_of(n as u8) as u32;
    let inputs = state + state_wires;
    let r = layout_reading(n, m, b, inputs);
    let c = layout_acting(n, b, r.greatest);
    Addresses {
        n,
        m,
        b,
        pairs: r.pairs,
        nodes: r.nodes,
        skip: 2 * r.pairs + 1 - m,
        state,
        standing: inputs - 2,
        inputs,
        literals: r.literals,
        counts: r.counts,
        ranks: r.ranks,
        digits: r.digits,
        keys: r.keys,
        tree: r.tree,
        greatest: r.greatest,
        rule: c.rule,
        targets: c.targets,
        guards: c.guards,
        selects: c.selects,
        levels: c.levels,
        block: c.block,
        assignments: c.assignments,
        depths: c.depths,
        outputs: c.outputs,
        wires: c.outputs + state_wires + 1,
    }
}

// The sections that read the rows, after so many inputs.
fn layout_reading(n: u32, m: u32, b: u32, inputs: u32) -> ReadingAddresses
    requires { (n ≤ 255) × (m ≤ 765) × (b ≤ 5) × (n * m ≤ 195075) × (m * b ≤ 3825) × (inputs ≤ 1048576) }
    ensures value { result ≡ reading_of n m b inputs }
    ensures pairs_bound { (result.pairs ≤ 765) × (m ≤ 2 * result.pairs + 1) × (result.greatest ≤ 6291456) }
{
    let pairs = m / 2;
    let nodes = digits::less(digits::less(m, 1), pairs);
    let lane = 1 + cells::NODE_SIZE * (3 + b);
    let literals = inputs + 1;
    let counts = literals + (2 + cells::LITERAL_SIZE * n) * m;
    let ranks = counts + (2 + cells::COUNT_SIZE * n) * m;
    let digits = ranks + cells::RANK_SIZE * m;
    let keys = digits + digits::digits_to(n, m, b);
    let tree = keys + m * (3 + b);
    ReadingAddresses {
        pairs,
        nodes,
        literals,
        counts,
        ranks,
        digits,
        keys,
        tree,
        greatest: tree + lane + lane * pairs + lane * nodes,
    }
}

// The sections that act on the greatest key.
fn layout_acting(n: u32, b: u32, greatest: u32) -> ActingAddresses
    requires { (n ≤ 255) × (b ≤ 5) × (n * n ≤ 65025) × (greatest ≤ 6291456) }
    ensures value { result ≡ acting_of n b greatest }
    ensures outputs_bound { result.outputs ≤ 8388608 }
{
    let rule = greatest + cells::CHOICE_SIZE * (3 + b);
    let targets = rule + cells::DECODER + 2 * digits::power(b);
    let guards = targets + cells::TARGET_SIZE * n;
    let selects = guards + 2 * cells::GUARD_SIZE * n;
    let levels = selects + 4 + cells::SELECT_SIZE * n;
    let block = (1 + cells::LEVEL_SIZE * n) * n;
    let assignments = levels + 3 * block;
    let depths = assignments + 2 * cells::ASSIGNMENT_SIZE * n;
    ActingAddresses {
        rule,
        targets,
        guards,
        selects,
        levels,
        block,
        assignments,
        depths,
        outputs: depths + (n + 1),
    }
}

impl Section {
    // Section k of the circuit of these dimensions: 40, then the next levels, and last the next standing.
    pub fn at(d: Dimensions, k: u32) -> Section
        ensures { result ≡ Sections.section_at (addresses_on d) k }
    {
        let a = Addresses::of(d);
        let n = d.n as u32;
        if k < 40 {
            return first(a, k);
        }
        let l = k - 40;
        if l < n {
            outputs::next_level(a, l)
        } else {
            outputs::next_standing(a)
        }
    }
}

// Section k of those before the next levels.
fn first(a: Addresses, k: u32) -> Section
    requires { Small a × (k < 40) }
    ensures { result ≡ get_or (Sections.first a) k (Sections.next_standing a) }
{
    match k {
        0 => judging::zero_gate(a),
        1 => judging::literals(a),
        2 => judging::counts(a),
        3 => judging::ranks(a),
        4..=8 => weighing::digit(a, k - 4),
        9 => weighing::key_sign(a),
        10..=14 => weighing::key_digit(a, k - 10),
        15 => weighing::key_low(a),
        16 => weighing::key_high(a),
        17 => choosing::bye(a),
        18 => choosing::pairs(a),
        19 => choosing::nodes(a),
        20 => choosing::greatest(a),
        21 => choosing::rule(a),
        22 => choosing::root(a),
        23..=27 => choosing::split(a, k - 23),
        28 => holding::targets(a),
        29 => holding::guards(a),
        30 => holding::selects(a),
        31 => holding::select_end(a),
        32 => changing::levels_t(a),
        33 => changing::levels_f(a),
        34 => changing::levels_v(a),
        35 => changing::assign_t(a),
        36 => changing::assign_f(a),
        37 => changing::depths(a),
        38 => outputs::next_assignment(a),
        _ => outputs::next_depth(a),
    }
}

// A section of no lanes.
fn no_section(a: Addresses) -> Section
    ensures { result ≡ Sections.no_section a }
{
    Section {
        base: a.inputs,
        zeros: 0,
        template: cells::SUM,
        size: cells::SUM_SIZE,
        lanes: 0,
        cells: 0,
        slots: [0; 8],
        outer: [0; 8],
        inner: [0; 8],
    }
}
