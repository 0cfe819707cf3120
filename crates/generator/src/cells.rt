// Cells: constant templates of gates, placed by address. A template's operand below 8 is a slot, 8 + k the cell's own gate k.
ghost use Rattle.std.specs.Prelude.{◌≡◌, true, cond, ◌+◌, ◌*◌, ◌-◌, ◌≤◌, eqb, length};
ghost use Rattle.std.proofs.lemmas.List.Edits.{sets};
ghost use Rattle.gates.specs.Memory.{words_of};
ghost use Rattle.netlist.specs.Arrays as Arrays;
ghost use Rattle.netlist.specs.Arrays.{cell, in_array, Below};
ghost use Rattle.generator.specs.Storing as Storing;
ghost use Rattle.generator.specs.Storing.{gates_in, tidy, Fits};

use crate::templates;
use sections::Section;

// A word as an index.
fn wide(x: u32) -> usize
    ensures { result ≡ x }
{
    x as usize
}

// An operand's wire in a cell whose first gate drives wire `base`.
fn operand(x: u32, base: u32, slots: [u32; 8]) -> u32
    requires { base + x ≤ 4294967295 }
    ensures { result ≡ Arrays.operand slots base x }
{
    if x < 8 {
        let i = wide(x);
        slots[i]
    } else {
        base + (x - 8)
    }
}

// A gate's second word: 0 for INV.
fn second(kind: u32, x: u32, base: u32, slots: [u32; 8]) -> u32
    requires { base + x ≤ 4294967295 }
    ensures { result ≡ cond (eqb kind 2) 0 (Arrays.operand slots base x) }
{
    if kind == 2 {
        0
    } else {
        operand(x, base, slots)
    }
}

// Writes a template's gates, the first of which drives wire `base`.
fn place(words: &mut [u32], inputs: u32, base: u32, template: &[u32], slots: [u32; 8])
    requires template_value { tidy template.now ≡ true }
    requires inputs_le_base { (inputs ≤ base) × (base ≤ 33554432) }
    requires template_in_bounds { 3 * (base - inputs) + 3 * length template.now ≤ length words.old }
    ensures { words.new ≡ sets words.old (3 * (base - inputs))
        (words_of (cell slots base (gates_in template.now))) }
{
    let start = 3 * wide(base - inputs);
    for (i, &g) in template.iter().enumerate() {
        let k = g / 65536;
        let a = operand(g / 256 % 256, base, slots);
        let b = second(k, g % 256, base, slots);
        let p = start + 3 * i;
        words[p] = k;
        words[p + 1] = a;
        words[p + 2] = b;
    }
}

// The slots after i steps.
fn along(slots: [u32; 8], steps: [u32; 8], i: u32) -> [u32; 8]
    requires { (Below 41943040 slots) × (Below 65536 steps) × (i ≤ 384) }
    ensures { result ≡ Arrays.along slots steps i }
{
    std::array::from_fn(|k| slots[k] + steps[k] * i)
}

// n cells, each with its slots a step on.
fn cells(
    words: &mut [u32],
    inputs: u32,
    base: u32,
    template: &[u32],
    n: u32,
    slots: [u32; 8],
    steps: [u32; 8],
)
    requires template_value { (tidy template.now ≡ true) × (length template.now ≤ 16) }
    requires n_bound { (n ≤ 384) × (inputs ≤ base) × (base ≤ 16777216) }
    requires below { (Below 41943040 slots) × (Below 65536 steps) }
    requires n_in_bounds { 3 * (base - inputs) + 3 * (length template.now * n) ≤ length words.old }
    ensures { words.new ≡ sets words.old (3 * (base - inputs))
        (words_of (Arrays.cells (gates_in template.now) slots steps base n)) }
{
    let size = template.len() as u32;
    for i in 0..n {
        let here = along(slots, steps, i);
        place(words, inputs, base + size * i, template, here);
    }
}

// Gates that are 0, then n cells.
fn lane(
    words: &mut [u32],
    inputs: u32,
    base: u32,
    zeros: u32,
    template: &[u32],
    n: u32,
    slots: [u32; 8],
    steps: [u32; 8],
)
    requires template_value { (tidy template.now ≡ true) × (length template.now ≤ 16) }
    requires zeros_bound { (zeros ≤ 4) × (n ≤ 384) × (inputs ≤ base) × (base ≤ 8388608) }
    requires below { (Below 41943040 slots) × (Below 65536 steps) }
    requires n_in_bounds { 3 * (base - inputs) + 3 * (zeros + length template.now * n) ≤ length words.old }
    ensures { words.new ≡ sets words.old (3 * (base - inputs))
        (words_of (Arrays.lane zeros (gates_in template.now) slots steps base n)) }
{
    cells(words, inputs, base, &templates::SUM, zeros, [0; 8], [0; 8]);
    cells(words, inputs, base + zeros, template, n, slots, steps);
}

// A section's lanes, each with its slots a step on.
fn array(words: &mut [u32], inputs: u32, template: &[u32], s: Section)
    requires template_value { (tidy template.now ≡ true) × (length template.now ≡ s.size) }
    requires fits { Fits inputs s (length words.old) }
    ensures { words.new ≡ sets words.old (3 * (s.base - inputs)) (words_of (in_array (gates_in template.now) s)) }
{
    let step = s.zeros + s.size * s.cells;
    for j in 0..s.lanes {
        let at = s.base + step * j;
        let here = along(s.slots, s.outer, j);
        lane(words, inputs, at, s.zeros, template, s.cells, here, s.inner);
    }
}

// A section, whose template has the gates from `first` to before `end` of all templates.
pub(crate) fn section(words: &mut [u32], inputs: u32, first: usize, end: usize, s: Section)
    requires first_value { (first ≡ s.template) × (end ≡ s.template + s.size) }
    requires fits { Fits inputs s (length words.old) }
    ensures { words.new ≡ sets words.old (3 * (s.base - inputs)) (words_of (Storing.gates_of s)) }
{
    array(words, inputs, &templates::TEMPLATES[first..end], s);
}
