// A copy of the value table, and the table restored from it.
ghost use Rattle.std.specs.Prelude.{◌≡◌};
ghost use Rattle.graph_division.specs.Initialize.{saved_table, restored_table};

// The table's entries of all variables, to read which literals it held on entry and to take back what is done. Past a short table's end
// the copy keeps its zeros.
pub(crate) fn save(table: &[u8]) -> [u8; 4096]
    ensures { result ≡ saved_table table.now }
{
    let mut saved = [0u8; 4096];
    let n = table.len().min(saved.len());
    saved[..n].copy_from_slice(&table[..n]);
    saved
}

pub(crate) fn restore(saved: &[u8], table: &mut [u8])
    ensures { table.new ≡ restored_table saved.now table.old }
{
    for i in 0..table.len().min(4096) {
        table[i] = saved.get(i).copied().unwrap_or(0);
    }
}
