// The C host: the calls of crate byte_calls, exported under C's names. A slice is a pointer and a length in C; include/zuntjev.h has the
// layout of the bytes. Every call takes any bytes. It is a static library and stays thin.
#![tactic(auto)]

ghost use Rattle.std.specs.Prelude.{◌≡◌};
ghost use Rattle.byte_calls.specs.Host.{left_with, back, too_short, host_initialized, initialized_in, host_propagated};
ghost use Rattle.byte_calls.specs.Host.{propagated_in, host_undone, undone_in, host_reason, host_last, host_run};
ghost use Rattle.byte_calls.specs.Host.{host_page, build_code};
ghost use Rattle.byte_calls.specs.After.{Leaves};
ghost use Rattle.byte_calls.specs.Build.{BuiltIn};
ghost use Rattle.byte_calls.specs.Check.{check_code};
ghost use Rattle.byte_calls.specs.Numbers.{numbers_in};

// The bytes hold the numbers of n vertices and m edges as builder::input says, 4 bytes each. An option other than 0 counts as 1.
#[unsafe(no_mangle)]
pub extern "C" fn zuntjev_build(
    vertices: &[u8],
    n: usize,
    edges: &[u8],
    m: usize,
    same_size: i32,
    extra_walls: i32,
    state: &mut [u8],
) -> i32
    ensures value { result ≡ build_code (numbers_in 4288 vertices.now) n (numbers_in 384 edges.now) m state.old }
    ensures built_in { BuiltIn (numbers_in 4288 vertices.now) n (numbers_in 384 edges.now) m same_size extra_walls state.old state.new }
{
    byte_calls::on_bytes::build(vertices, n, edges, m, same_size, extra_walls, state)
}

// Notifies, in rising order, the plan's literals that are true in the table on entry, and analyzes once more.
#[unsafe(no_mangle)]
pub extern "C" fn zuntjev_initialize(
    state: &mut [u8],
    table: &mut [u8],
    list: &mut [u8],
    log: &mut [u8],
    cursor: &mut [u8],
) -> i32
    ensures cursor_after { left_with result table.new list.new log.new cursor.new
        ≡ host_initialized state.old table.old list.old log.old cursor.old }
    ensures leaves { Leaves (too_short state.old cursor.old) (initialized_in state.old table.old list.old log.old cursor.old).outcome state.old state.new }
{
    byte_calls::on_bytes::initialize(state, table, list, log, cursor)
}

// Notifies the literal. With a pending number other than 0 it is only noted.
#[unsafe(no_mangle)]
pub extern "C" fn zuntjev_propagate(
    state: &mut [u8],
    table: &mut [u8],
    list: &mut [u8],
    log: &mut [u8],
    cursor: &mut [u8],
    lit: i32,
    num_pending_propagations: i32,
) -> i32
    ensures cursor_after { left_with result table.new list.new log.new cursor.new
        ≡ host_propagated state.old table.old list.old log.old cursor.old lit num_pending_propagations }
    ensures leaves { Leaves (too_short state.old cursor.old) (propagated_in state.old table.old list.old log.old cursor.old lit num_pending_propagations).outcome state.old state.new }
{
    byte_calls::on_bytes::propagate(
        state,
        table,
        list,
        log,
        cursor,
        lit,
        num_pending_propagations,
    )
}

// Takes back the newest notification, which must be the literal's.
#[unsafe(no_mangle)]
pub extern "C" fn zuntjev_undo(state: &mut [u8], log: &[u8], cursor: &mut [u8], lit: i32) -> i32
    ensures cursor_after { back result cursor.new ≡ host_undone state.old log.now cursor.old lit }
    ensures leaves { Leaves (too_short state.old cursor.old) (undone_in state.old log.now cursor.old lit) state.old state.new }
{
    byte_calls::on_bytes::undo(state, log, cursor, lit)
}

// The literal's reason goes to the buffer.
#[unsafe(no_mangle)]
pub extern "C" fn zuntjev_calc_reason(
    state: &[u8],
    log: &[u8],
    cursor: &[u8],
    lit: i32,
    buffer: &mut [u8],
) -> i32
    ensures { back result buffer.new ≡ host_reason state.now log.now cursor.now lit buffer.old }
{
    byte_calls::on_bytes::calc_reason(state, log, cursor, lit, buffer)
}

// The list last left goes to the buffer.
#[unsafe(no_mangle)]
pub extern "C" fn zuntjev_calc_last(
    state: &[u8],
    log: &[u8],
    cursor: &[u8],
    buffer: &mut [u8],
) -> i32
    ensures { back result buffer.new ≡ host_last state.now log.now cursor.now buffer.old }
{
    byte_calls::on_bytes::calc_last(state, log, cursor, buffer)
}

// The run of edges, connected or undecided, from one vertex to the other goes to the buffer, two bytes for each
// edge's number.
#[unsafe(no_mangle)]
pub extern "C" fn zuntjev_run(
    state: &[u8],
    log: &[u8],
    cursor: &[u8],
    from: i32,
    to: i32,
    buffer: &mut [u8],
) -> i32
    ensures { back result buffer.new ≡
        host_run state.now log.now cursor.now from to buffer.old }
{
    byte_calls::on_bytes::run(state, log, cursor, from, to, buffer)
}

// The plan's own test, of the state alone: 0, or -7 where its plan is none that zuntjev_build gives. The calls do not make it.
#[unsafe(no_mangle)]
pub extern "C" fn zuntjev_check(state: &[u8]) -> i32
    ensures { result ≡ check_code state.now }
{
    byte_calls::check::check(state)
}

// The page of the decided regions goes to the buffer, a line of 39 bytes for each.
#[unsafe(no_mangle)]
pub extern "C" fn zuntjev_page(state: &[u8], log: &[u8], cursor: &[u8], buffer: &mut [u8]) -> i32
    ensures { back result buffer.new ≡
        host_page state.now log.now cursor.now buffer.old }
{
    byte_calls::on_bytes::page(state, log, cursor, buffer)
}
