// The calls over numbers and byte slices, on any bytes: a state or a cursor that is shorter than its layout is refused with 7.
ghost use Rattle.std.specs.Prelude.{◌≡◌, true, false};
ghost use Rattle.byte_calls.specs.Host.{left_with, back, too_short, host_initialized, initialized_in};
ghost use Rattle.byte_calls.specs.Host.{host_propagated, propagated_in, host_undone, undone_in, host_reason};
ghost use Rattle.byte_calls.specs.Host.{host_last, host_run, host_page, build_code};
ghost use Rattle.byte_calls.specs.After.{Leaves};
ghost use Rattle.byte_calls.specs.Build.{BuiltIn};
ghost use Rattle.byte_calls.specs.Numbers.{numbers_in};

use builder::input::{no_edges, no_vertices};

fn too_short(state: &[u8], cursor: &[u8]) -> bool
    ensures { result ≡ too_short state.now cursor.now }
{
    state.len() < 133440 || cursor.len() < 8
}

// The bytes hold the numbers of n vertices and m edges as builder::input says, 4 bytes each. An option other than 0 counts as 1.
pub fn build(
    vertices: &[u8],
    n: usize,
    edges: &[u8],
    m: usize,
    same_size: i32,
    extra_walls: i32,
    state: &mut [u8],
) -> i32
    ensures value { result ≡ build_code (numbers_in 4288 vertices.now) n (numbers_in 384 edges.now) m state.old }
    ensures built_in { BuiltIn (numbers_in 4288 vertices.now) n (numbers_in 384 edges.now) m same_size extra_walls state.old state.new }
{
    let mut vertex_numbers = no_vertices();
    crate::numbers::read_numbers(vertices, 4288, &mut vertex_numbers);
    let mut edge_numbers = no_edges();
    crate::numbers::read_numbers(edges, 384, &mut edge_numbers);
    crate::build::build_from(
        &vertex_numbers,
        n,
        &edge_numbers,
        m,
        same_size,
        extra_walls,
        state,
    )
}

// Notifies, in rising order, the plan's literals that are true in the table on entry, and analyzes once more.
pub fn initialize(
    state: &mut [u8],
    table: &mut [u8],
    list: &mut [u8],
    log: &mut [u8],
    cursor: &mut [u8],
) -> i32
    ensures cursor_after { left_with result table.new list.new log.new cursor.new
        ≡ host_initialized state.old table.old list.old log.old cursor.old }
    ensures leaves { Leaves (too_short state.old cursor.old) (initialized_in state.old table.old list.old log.old cursor.old).outcome state.old state.new }
{
    if too_short(state, cursor) {
        return -7;
    }
    crate::initialize::initialize(state, table, list, log, cursor)
}

// Notifies the literal. With a pending number other than 0 it is only noted.
pub fn propagate(
    state: &mut [u8],
    table: &mut [u8],
    list: &mut [u8],
    log: &mut [u8],
    cursor: &mut [u8],
    lit: i32,
    num_pending_propagations: i32,
) -> i32
    ensures cursor_after { left_with result table.new list.new log.new cursor.new
        ≡ host_propagated state.old table.old list.old log.old cursor.old lit num_pending_propagations }
    ensures leaves { Leaves (too_short state.old cursor.old) (propagated_in state.old table.old list.old log.old cursor.old lit num_pending_propagations).outcome state.old state.new }
{
    if too_short(state, cursor) {
        return -7;
    }
    crate::changes::propagate(
        state,
        table,
        list,
        log,
        cursor,
        lit,
        num_pending_propagations,
    )
}

// Takes back the newest notification, which must be the literal's.
pub fn undo(state: &mut [u8], log: &[u8], cursor: &mut [u8], lit: i32) -> i32
    ensures cursor_after { back result cursor.new ≡ host_undone state.old log.now cursor.old lit }
    ensures leaves { Leaves (too_short state.old cursor.old) (undone_in state.old log.now cursor.old lit) state.old state.new }
{
    if too_short(state, cursor) {
        return -7;
    }
    crate::changes::undo(state, log, cursor, lit)
}

// The literal's reason goes to the buffer.
pub fn calc_reason(state: &[u8], log: &[u8], cursor: &[u8], lit: i32, buffer: &mut [u8]) -> i32
    ensures { back result buffer.new ≡ host_reason state.now log.now cursor.now lit buffer.old }
{
    if too_short(state, cursor) {
        return -7;
    }
    crate::fetch::calc_reason(state, log, cursor, lit, buffer)
}

// The list last left goes to the buffer.
pub fn calc_last(state: &[u8], log: &[u8], cursor: &[u8], buffer: &mut [u8]) -> i32
    ensures { back result buffer.new ≡ host_last state.now log.now cursor.now buffer.old }
{
    if too_short(state, cursor) {
        return -7;
    }
    crate::fetch::calc_last(state, log, cursor, buffer)
}

// The run of edges, connected or undecided, from one vertex to the other goes to the buffer, two bytes for each
// edge's number.
pub fn run(state: &[u8], log: &[u8], cursor: &[u8], from: i32, to: i32, buffer: &mut [u8]) -> i32
    ensures { back result buffer.new ≡
        host_run state.now log.now cursor.now from to buffer.old }
{
    if too_short(state, cursor) {
        return -7;
    }
    crate::run::run(state, log, cursor, from, to, buffer)
}

// The page of the decided regions goes to the buffer, a line of 39 bytes for each.
pub fn page(state: &[u8], log: &[u8], cursor: &[u8], buffer: &mut [u8]) -> i32
    ensures { back result buffer.new ≡
        host_page state.now log.now cursor.now buffer.old }
{
    if too_short(state, cursor) {
        return -7;
    }
    crate::page::page(state, log, cursor, buffer)
}
