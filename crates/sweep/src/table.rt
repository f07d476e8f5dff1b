// The value table: a byte for each variable, 0 unset; 1 true, 2 false, set earlier; 3 true, 4 false, set at the current level.
ghost use Rattle.std.specs.Prelude.{◌≡◌, ◌-◌, take, drop};
ghost use Rattle.calls.specs.Table.{code_of, coded, true_in, false_in, unset_in, current_in, some_current, enter};
ghost use Rattle.calls.specs.Marks.{current_code};

// The entry of a literal's variable; past the table's end 0.
#[tactic(auto, unfolding(calls::specs::Table::code_of))]
fn code(table: &[u8], lit: u64) -> u8
    ensures { result ≡ code_of table.now lit }
{
    table.get(sat::variable_index(lit)).copied().unwrap_or(0)
}

#[tactic(auto, unfolding(calls::specs::Table::coded))]
fn coded(x: u8, y: u8, c: u8) -> bool
    ensures { result ≡ coded x y c }
{
    c == x || c == y
}

#[tactic(auto, unfolding(calls::specs::Table::true_in, base::specs::Iter::pick))]
pub fn is_true(table: &[u8], lit: u64) -> bool
    ensures { result ≡ true_in table.now lit }
{
    if sat::is_positive(lit) {
        return coded(1, 3, code(table, lit));
    }
    coded(2, 4, code(table, lit))
}

#[tactic(auto, unfolding(calls::specs::Table::false_in, base::specs::Iter::pick))]
pub(crate) fn is_false(table: &[u8], lit: u64) -> bool
    ensures { result ≡ false_in table.now lit }
{
    if sat::is_positive(lit) {
        return coded(2, 4, code(table, lit));
    }
    coded(1, 3, code(table, lit))
}

#[tactic(auto, unfolding(calls::specs::Table::unset_in))]
pub(crate) fn is_unset(table: &[u8], lit: u64) -> bool
    ensures { result ≡ unset_in table.now lit }
{
    code(table, lit) == 0
}

// Whether the literal or its negation was set at the current level.
#[tactic(auto, unfolding(calls::specs::Table::current_in))]
fn is_current(table: &[u8], lit: u64) -> bool
    ensures { result ≡ current_in table.now lit }
{
    coded(3, 4, code(table, lit))
}

// The code of a literal that becomes true at the current level.
#[tactic(auto, unfolding(calls::specs::Marks::current_code, base::specs::Iter::pick))]
fn current_code(lit: u64) -> u8
    ensures { result ≡ current_code lit }
{
    if sat::is_positive(lit) { 3 } else { 4 }
}

// The literal becomes true at the current level; nothing past the table's end.
#[tactic(auto, unfolding(calls::specs::Table::enter, calls::specs::Marks::current_code, base::specs::Iter::pick))]
pub(crate) fn enter(table: &mut [u8], lit: u64)
    ensures { table.new ≡ enter table.old lit }
{
    let i = sat::variable_index(lit);
    if i < table.len() {
        table[i] = current_code(lit);
    }
}

// Refusal 14's test: some literal of list[from..to], as far as the list goes, is of the current level, whichever its sign.
pub fn some_current(table: &[u8], list: &[u32], from: usize, to: usize) -> bool
    ensures { result ≡ some_current table.now (take (to - from) (drop from list.now)) }
{
    for i in from..to.min(list.len()) {
        if is_current(table, u64::from(list[i])) {
            return true;
        }
    }
    false
}
