// The value table as the lines change it. A variable past the table's end is not entered.
ghost use Rattle.std.specs.Prelude.{◌≡◌, ◌/◌, ◌%◌, eqb, get_or, set};
ghost use Rattle.base.specs.Iter.{pick};
ghost use Rattle.calls.specs.Table.{enter};
ghost use Rattle.refusals.specs.Refusals.{lit_number};
ghost use Rattle.desk.specs.Obey.{marked};

// The variable of a literal from outside, 0 for one that is none.
pub(crate) fn variable(lit: i32) -> usize
    ensures { result ≡ lit_number lit / 2 }
{
    sat::variable_index(refusals::lit_number(lit) as u64)
}

pub(crate) fn entry(table: &[u8], v: usize) -> u8
    ensures { result ≡ get_or table.now v 0 }
{
    table.get(v).copied().unwrap_or(0)
}

pub(crate) fn store(table: &mut [u8], v: usize, code: u8)
    ensures { table.new ≡ set table.old v code }
{
    if v < table.len() {
        table[v] = code;
    }
}

// The code of a literal that becomes true at the current level.
fn code_of(l: u16) -> u8
    ensures { result ≡ pick (eqb (l % 2) 0) 3 4 }
{
    if sat::is_positive(l as u64) {
        return 3;
    }
    4
}

// An unset variable becomes set at the current level, as the literal says; none for a literal outside its range.
pub(crate) fn mark(table: &mut [u8], lit: i32)
    ensures { table.new ≡ marked lit table.old }
{
    if sat::is_literal(lit) {
        let v = variable(lit);
        if entry(table, v) == 0 {
            store(table, v, code_of(refusals::lit_number(lit)));
        }
    }
}
