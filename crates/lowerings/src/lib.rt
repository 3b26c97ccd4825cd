// The terminals of a product over its exponent, divided by √2 while it goes.
#![tactic(auto)]

ghost use Rattle.std.specs.Prelude.{◌≡◌, map};
ghost use Rattle.algebra.specs.Division.{divisible, over_√2};
ghost use Rattle.algebra.specs.Lowering.{every};
ghost use Rattle.lowerings.specs.Lowered.{Lowers};

use algebra::Entry;

// Whether each terminal is a multiple of √2.
fn all_divisible(terminals: &[Entry]) -> bool
    ensures { result ≡ every divisible terminals.now }
{
    terminals.iter().all(|x| algebra::divisible(*x))
}

// Each terminal is divided by √2.
fn divide_all(terminals: &mut [Entry])
    ensures { terminals.new ≡ map over_√2 terminals.old }
{
    for x in terminals.iter_mut() {
        *x = algebra::over_root(*x);
    }
}

// The terminals are divided while the exponent is above 0 and each of them is a multiple of √2; the exponent then.
pub fn lower(terminals: &mut [Entry], power: u32) -> u32
    ensures { Lowers power terminals.old terminals.new result }
{
    for k in (0..power).rev() {
        if !all_divisible(terminals) {
            return k + 1;
        }
        divide_all(terminals);
    }
    0
}
