// A bout as it should go.
use crate::table::Table;
use std::io;

// Both players move, and both ends hear of it.
fn play(
    rt: &impl Print,
    table: &mut Table,
    frame: i32,
    inputs: [u8; 2],
    now: u32,
) -> io::Result<()> {
    let [a, b] = inputs;
    table.a.send_input(rt, frame, a, now)?;
    table.b.send_input(rt, frame, b, now)?;
    table.meet(rt, now)?;
    table.take_events(rt)
}

pub(crate) fn run(rt: &impl Print) -> io::Result<()> {
    println!(rt; "# A bout: the handshake")?;
    let mut table = Table::synchronized(rt)?;
    table.take_events(rt)?;
    println!(rt; "# Three frames")?;
    play(rt, &mut table, 0, [0x05, 0x11], 100)?;
    play(rt, &mut table, 1, [0x07, 0x12], 117)?;
    play(rt, &mut table, 2, [0x02, 0x13], 133)?;
    measure(rt, &mut table)?;
    close(rt, &mut table)
}

// Both ends act, and what they send arrives 20 ms later. Statistics are given from a second after the handshake's beginning.
fn measure(rt: &impl Print, table: &mut Table) -> io::Result<()> {
    println!(rt; "# Both ends act at frame 3")?;
    table.a.update_local_frame_advantage(rt, 3)?;
    table.a.act(rt, 400)?;
    table.b.update_local_frame_advantage(rt, 3)?;
    table.b.act(rt, 400)?;
    table.a.show_messages(rt, b"sends ")?;
    table.b.show_messages(rt, b"sends ")?;
    table.meet(rt, 420)?;
    table.take_events(rt)?;
    table.a.show_stats(rt, 999)?;
    table.a.show_stats(rt, 1000)
}

// A disconnects and sends no more; B's endpoint announces the silence, then the end.
fn close(rt: &impl Print, table: &mut Table) -> io::Result<()> {
    println!(rt; "# A disconnects")?;
    let Table { a, b } = table;
    a.disconnect(rt, 1000)?;
    a.show_state(rt)?;
    for now in [1100, 2500] {
        b.act(rt, now)?;
        b.take_events(rt)?;
    }
    b.disconnect(rt, 2500)?;
    b.show_state(rt)?;
    for now in [6000, 6001] {
        a.act(rt, now)?;
        a.show_state(rt)?;
    }
    Ok(())
}
