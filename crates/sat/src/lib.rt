// Variables and literals: `Var` and `Lit` of sat.rs. Variable v gives literal 2v, and 2v + 1 for its negation.
#![tactic(auto)]

ghost use Rattle.std.specs.Prelude.{◌≡◌, pos};
ghost use Rattle.sat.specs.Literal.{literal, variable, is_negated, is_positive, sign, negate, lit_of, var_of};
ghost use Rattle.base.specs.Range.{in_range};

#[derive(Clone, Copy)]
pub struct Var(pub u16);

#[derive(Clone, Copy)]
pub struct Lit(pub u16);

#[tactic(auto, unfolding(crate::specs::Literal::literal, base::specs::Iter::pick))]
fn signed(var: u16, negated: bool) -> u16
    ensures { result ≡ literal var negated }
{
    2 * (var % 32768) + u16::from(negated)
}

// The same of a literal among words.
#[tactic(auto, unfolding(crate::specs::Literal::negate, base::specs::Iter::pick))]
pub fn negation(lit: u32) -> u32
    ensures { result ≡ negate lit }
{
    if lit % 2 == 0 { lit + 1 } else { lit - 1 }
}

pub fn variable(lit: u32) -> u32
    ensures { result ≡ variable lit }
{
    lit / 2
}

// 0 for a variable, 1 for its negation.
pub fn sign(lit: u32) -> u32
    ensures { result ≡ sign lit }
{
    lit % 2
}

// Where a table with an entry for each variable has the literal's.
pub fn variable_index(lit: u64) -> usize
    ensures { result ≡ variable lit }
{
    (lit / 2) as usize
}

pub fn is_positive(lit: u64) -> bool
    ensures { result ≡ is_positive lit }
{
    lit % 2 == 0
}

// Whether a number from outside is a literal.
pub fn is_literal(n: i32) -> bool
    ensures { result ≡ in_range (pos 8191) n }
{
    base::in_range(n, i32::from(Lit::MAX))
}

impl Var {
    // How many variables there are.
    pub const COUNT: u16 = 4096;

    pub fn as_lit(self, negated: bool) -> Lit
        ensures { result.0 ≡ literal self.0 negated }
    {
        Lit(signed(self.0, negated))
    }

    // The variable that a number from outside stands for.
    pub fn from_i32(n: i32) -> Option<Var>
        ensures { result ≡ var_of n }
    {
        if base::in_range(n, 4095) {
            return Some(Var(base::to_nat(n) as u16));
        }
        None
    }
}

impl Lit {
    // The largest literal.
    pub const MAX: u16 = 8191;

    pub fn new(var: Var, negated: bool) -> Lit
        ensures { result.0 ≡ literal var.0 negated }
    {
        Lit(signed(var.0, negated))
    }

    pub fn var(self) -> Var
        ensures { result.0 ≡ variable self.0 }
    {
        Var(self.0 / 2)
    }

    pub fn is_negated(self) -> bool
        ensures { result ≡ is_negated self.0 }
    {
        self.0 % 2 == 1
    }

    // `!lit` of the Rust.
    #[tactic(auto, unfolding(crate::specs::Literal::negate, base::specs::Iter::pick))]
    pub fn negation(self) -> Lit
        ensures { result.0 ≡ negate self.0 }
    {
        Lit(if self.0 % 2 == 0 {
            self.0 + 1
        } else {
            self.0 - 1
        })
    }

    // The literal that a number from outside stands for.
    pub fn from_i32(n: i32) -> Option<Lit>
        ensures { result ≡ lit_of n }
    {
        if is_literal(n) {
            return Some(Lit(base::to_nat(n) as u16));
        }
        None
    }
}
