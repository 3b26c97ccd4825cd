// The one decision over gate codes: what a gate does to a matrix, from the right and from the left, and its inverse.
#![tactic(auto)]

ghost use Rattle.std.specs.Prelude.{◌≡◌, true, false};
ghost use Rattle.gates.specs.Code.{code_number, Numbered};
ghost use Rattle.gates.specs.Rule.{diagonal, flipping, unturned, code_rule, phase, Decided};

// The codes of the gates, by number. There are no others.
#[derive(Clone, Copy, PartialEq, Eq, Debug)]
pub enum Code {
    X = 0,
    Y = 1,
    Z = 2,
    H = 3,
    S = 4,
    SDagger = 5,
    T = 6,
    TDagger = 7,
    Cnot = 8,
    Cz = 9,
    Toffoli = 10,
    Fredkin = 11,
}

// A number that is no gate's code.
#[derive(Clone, Copy, PartialEq, Eq, Debug)]
pub struct UnknownCode;

impl TryFrom<u32> for Code {
    type Error = UnknownCode;

    ghost try_from_gives = { λ number r. Numbered number r };

    fn try_from(number: u32) -> Result<Code, UnknownCode> {
        match number {
            0 => Ok(Code::X),
            1 => Ok(Code::Y),
            2 => Ok(Code::Z),
            3 => Ok(Code::H),
            4 => Ok(Code::S),
            5 => Ok(Code::SDagger),
            6 => Ok(Code::T),
            7 => Ok(Code::TDagger),
            8 => Ok(Code::Cnot),
            9 => Ok(Code::Cz),
            10 => Ok(Code::Toffoli),
            11 => Ok(Code::Fredkin),
            _ => Err(UnknownCode),
        }
    }
}

impl From<Code> for u32 {
    ghost from_gives = { λ code number. number ≡ code_number code };

    fn from(code: Code) -> u32 {
        code as u32
    }
}

// The powers of w8 by which an entry is multiplied, by the target's bit.
#[derive(Clone, Copy)]
pub struct Phases {
    pub zero: u32,
    pub one: u32,
}

impl Phases {
    // The power at the target's bit.
    #[inline]
    pub fn at(self, bit: bool) -> u32
        ensures { result ≡ phase self bit }
    {
        if bit { self.one } else { self.zero }
    }
}

// What follows a gate's code: a qubit; a control and a target; a mask of at least so many controls, and a target to act on or two whose
// bits are exchanged.
#[derive(Clone, Copy)]
pub enum Operands {
    Qubit,
    Controlled,
    Masked { least: u32 },
    Exchanging { least: u32 },
}

// What a gate does at its target where every control is 1: it takes the entry at the target's bit or at the flipped bit, times a power of
// w8; or it mixes the target's two entries; or it takes the entry with its two targets' bits swapped.
#[derive(Clone, Copy, PartialEq, Eq, Debug)]
pub enum Act {
    Keeps,
    Flips,
    Mixes,
    Swaps,
}

// A gate's data: what follows its code, what it does at its target, the powers of w8 by side, which differ for Y, and its inverse's code.
#[derive(Clone, Copy)]
pub struct Rule {
    pub operands: Operands,
    pub act: Act,
    pub right: Phases,
    pub left: Phases,
    pub inverse: Code,
}

// Three makers of a gate's data, as the definitions have them: one for all would be handed in each call what the other two leave alike.

// Diagonal: 1 at bit 0 and w8 to the power at bit 1, from both sides.
fn diagonal(operands: Operands, power: u32, inverse: Code) -> Rule
    ensures { result ≡ diagonal operands power inverse }
{
    let powers = Phases {
        zero: 0,
        one: power,
    };
    Rule {
        operands,
        act: Act::Keeps,
        right: powers,
        left: powers,
        inverse,
    }
}

// The target's bit is flipped; from the right the entry is multiplied by the powers of `right`, from the left by those of `left`.
fn flipping(operands: Operands, right: Phases, left: Phases, inverse: Code) -> Rule
    ensures { result ≡ flipping operands right left inverse }
{
    Rule {
        operands,
        act: Act::Flips,
        right,
        left,
        inverse,
    }
}

// No entry is turned by a power of w8: the target's two entries are mixed, or the bits of two targets are exchanged.
fn unturned(operands: Operands, act: Act, inverse: Code) -> Rule
    ensures { result ≡ unturned operands act inverse }
{
    let plain = Phases { zero: 0, one: 0 };
    Rule {
        operands,
        act,
        right: plain,
        left: plain,
        inverse,
    }
}

impl Code {
    // A gate's data, by kind, each dagger after its gate: diagonal, then flips and swaps, then H. docs/GATES.md goes through them.
    pub fn rule(self) -> Rule
        ensures is { result ≡ code_rule self }
        ensures decided { Decided (code_number self) (Some result) }
    {
        let plain = Phases { zero: 0, one: 0 };
        let right_of_y = Phases { zero: 2, one: 6 };
        let left_of_y = Phases { zero: 6, one: 2 };
        let one = Operands::Qubit;
        let two = Operands::Controlled;
        let flipped = Operands::Masked { least: 2 };
        let swapped = Operands::Exchanging { least: 1 };
        match self {
            Code::Z => diagonal(one, 4, Code::Z),
            Code::S => diagonal(one, 2, Code::SDagger),
            Code::SDagger => diagonal(one, 6, Code::S),
            Code::T => diagonal(one, 1, Code::TDagger),
            Code::TDagger => diagonal(one, 7, Code::T),
            Code::Cz => diagonal(two, 4, Code::Cz),
            Code::X => flipping(one, plain, plain, Code::X),
            Code::Y => flipping(one, right_of_y, left_of_y, Code::Y),
            Code::Cnot => flipping(two, plain, plain, Code::Cnot),
            Code::Toffoli => flipping(flipped, plain, plain, Code::Toffoli),
            Code::Fredkin => unturned(swapped, Act::Swaps, Code::Fredkin),
            Code::H => unturned(one, Act::Mixes, Code::H),
        }
    }
}
