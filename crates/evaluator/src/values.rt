// The trial's table of gates' values, which is looked up: jumps on the kind would be mispredicted.

// For each kind and held second wire, four values on the held first wire, as the trial holds them. After INV, wire 0 is the second.
pub(crate) const TRIAL_VALUES: [u8; 40] = [
    2, 3, 2, 3, 3, 2, 3, 2, 2, 3, 2, 3, 3, 2, 3, 2, 2, 2, 2, 2, 2, 3, 2, 3, 2, 2, 2, 2, 2, 3, 2, 3,
    3, 2, 3, 2, 3, 2, 3, 2,
];
