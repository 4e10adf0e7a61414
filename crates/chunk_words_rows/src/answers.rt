//! Flush requests and their answers: the service asks with the reading pass, and a writer answers.
ghost use Rattle.std.specs.Prelude.{◌≡◌, ◌+◌, ◌<◌, false, []};
ghost use Rattle.chunk_plain.specs.Views.{asked_in};
ghost use Rattle.chunk_words.specs.Knows.{service_of};
ghost use Rattle.chunk_words.specs.Sits.{Attends, Passes};
ghost use Rattle.trace_writer.specs.Core.{in_packet};
ghost use Rattle.thread_writer.specs.Writing.{view_in};
ghost use Rattle.chunk_words_rows.specs.Page.{IsOnePage};
ghost use Rattle.chunk_words_rows.specs.Going.{IsReady};

use crate::threads::{both, make};
use crate::writing::{write_number, writer_for};
use chunk_words::{HostTable, ReadPass, ServiceSeat};
use page_geometry::Geometry;
use std::marker::Brand;
use std::sync::ledger::{Blank, Ledger};
use std::test::Fail;
use thread_writer::TraceWriter;
use trace_base::steps::Steps;
use trace_writer::{PACKET_IDS, drops_never_stall};

/// What the writer answered in turn, and what the service read of it before and behind.
#[derive(Clone, Copy)]
struct Answers {
    unasked: Option<(u32, u32)>,
    none: (u32, u32),
    first: Option<(u32, u32)>,
    again: Option<(u32, u32)>,
    third: Option<(u32, u32)>,
    read: (u32, u32),
}

/// The service makes the request with this number.
fn ask(host: &HostTable, service: &mut ServiceSeat, pass: &mut ReadPass, flush: u32)
    requires service { Attends host.now service.old }
    requires pass { Passes host.now pass.old }
    requires next { flush ≡ asked_in (service_of service.old.seat.me.0).letters + 1 }
    requires none_read { (service_of service.old.seat.me.0).reading ≡ [] }
    ensures service { Attends host.now service.new }
    ensures pass { Passes host.now pass.new }
    ensures none_read { (service_of service.new.seat.me.0).reading ≡ [] }
    ensures asked { asked_in (service_of service.new.seat.me.0).letters ≡ flush }
{
    host.note_request(service, pass, flush);
}

/// It reads the answer of the first writer.
fn answered(host: &HostTable, service: &mut ServiceSeat) -> (u32, u32)
    requires page { IsOnePage host.now }
    requires service { Attends host.now service.old }
    requires none_read { (service_of service.old.seat.me.0).reading ≡ [] }
    ensures service { Attends host.now service.new }
    ensures none_read { (service_of service.new.seat.me.0).reading ≡ [] }
    ensures asked { asked_in (service_of service.new.seat.me.0).letters ≡ asked_in (service_of service.old.seat.me.0).letters }
{
    host.answered(service, 1)
}

/// The writer is polled.
fn poll(host: &HostTable, writer: &mut TraceWriter) -> Option<(u32, u32)>
    requires ready { IsReady host.now writer.old }
    requires outside { in_packet (view_in writer.old) ≡ false }
    ensures ready { IsReady host.now writer.new }
    ensures outside { in_packet (view_in writer.new) ≡ false }
{
    drops_never_stall();
    writer.poll_flush(host)
}

/// It writes a packet, if it has ids for it.
fn write<L: Ledger>(host: &HostTable, writer: &mut TraceWriter, number: u32, steps: &mut Steps<L>)
    requires ready { IsReady host.now writer.old }
    requires outside { in_packet (view_in writer.old) ≡ false }
    ensures ready { IsReady host.now writer.new }
    ensures outside { in_packet (view_in writer.new) ≡ false }
{
    if writer.ids_left() >= PACKET_IDS {
        write_number(host, writer, number, steps);
    }
}

/// It answers the first request behind a packet. Then it writes another one, hears of two more
/// requests, and answers both at once.
fn answer_all<L: Ledger>(
    host: &HostTable,
    mut writer: TraceWriter,
    service: &mut ServiceSeat,
    pass: &mut ReadPass,
    blank: Blank,
) -> Answers
    requires page { IsOnePage host.now }
    requires ready { IsReady host.now writer }
    requires outside { in_packet (view_in writer) ≡ false }
    requires service { Attends host.now service.old }
    requires pass { Passes host.now pass.old }
    requires none_asked { asked_in (service_of service.old.seat.me.0).letters ≡ 0 }
    requires none_read { (service_of service.old.seat.me.0).reading ≡ [] }
    requires name { blank.name ≡ L.name }
    requires parts { blank.parts ≡ L.parts }
    requires some_part { 0 < L.parts }
    ensures service { Attends host.now service.new }
    ensures pass { Passes host.now pass.new }
{
    let mut steps = Steps::<L>::new(blank);
    let unasked = poll(host, &mut writer);
    write(host, &mut writer, 5, &mut steps);
    ask(host, service, pass, 1);
    let none = answered(host, service);
    let first = poll(host, &mut writer);
    let again = poll(host, &mut writer);
    write(host, &mut writer, 6, &mut steps);
    ask(host, service, pass, 2);
    ask(host, service, pass, 3);
    writer.hear(host, pass);
    let third = poll(host, &mut writer);
    let read = answered(host, service);
    writer.flush(host);
    let _seat = writer.into_seat();
    Answers {
        unasked,
        none,
        first,
        again,
        third,
        read,
    }
}

/// The same with steps of its own.
fn answer_counted(
    host: &HostTable,
    writer: TraceWriter,
    service: &mut ServiceSeat,
    pass: &mut ReadPass,
) -> Answers
    requires page { IsOnePage host.now }
    requires ready { IsReady host.now writer }
    requires outside { in_packet (view_in writer) ≡ false }
    requires service { Attends host.now service.old }
    requires pass { Passes host.now pass.old }
    requires none_asked { asked_in (service_of service.old.seat.me.0).letters ≡ 0 }
    requires none_read { (service_of service.old.seat.me.0).reading ≡ [] }
    ensures service { Attends host.now service.new }
    ensures pass { Passes host.now pass.new }
{
    answer_all::<Brand>(host, writer, service, pass, Blank::new(1))
}

#[test]
fn a_writer_answers_the_newest_request(rt: HostRuntime) -> Result<(), Fail> {
    let (host, seats, mut service) = make(rt.alloc())?;
    let geometry = Geometry::new(4096, 14)?;
    let Some((first, _second)) = both(&host, seats) else {
        return Err(Fail::new("a writer has no seat"));
    };
    let mut pass = host.pass(&mut service);
    let writer = writer_for(&host, first, geometry);
    let answers = answer_counted(&host, writer, &mut service, &mut pass);
    assert_eq!(rt; answers.unasked, None);
    assert_eq!(rt; answers.none, (0, 0));
    assert_eq!(rt; answers.first, Some((1, 1)));
    assert_eq!(rt; answers.again, None);
    assert_eq!(rt; answers.third, Some((3, 2)));
    assert_eq!(rt; answers.read, (3, 2));
    Ok(())
}
