//! The page word of a page with 14 chunks, as one chunk of it goes from hand to hand.
ghost use Rattle.std.specs.Prelude.{◌+◌, ◌<◌, ◌≤◌};
ghost use Rattle.chunk_words.specs.Sits.{Attends};
ghost use Rattle.chunk_words_rows.specs.Fresh.{IsFreshSeat};
ghost use Rattle.chunk_words_rows.specs.Page.{IsOnePage, HasTaken};

use crate::giving::give_back;
use crate::threads::{FROM, both, make};
use chunk_words::{HostTable, ServiceSeat, WriterSeat};
use page_geometry::PageWord;
use std::test::Fail;
use trace_base::ids::id_of;

/// The word of the page.
fn word(host: &HostTable, service: &mut ServiceSeat) -> u64
    requires page { IsOnePage host.now }
    requires service { Attends host.now service.old }
    requires taken { HasTaken 0 service.old }
    ensures service { Attends host.now service.new }
    ensures taken { HasTaken 0 service.new }
{
    let PageWord(word) = host.look(service, 0).word;
    word
}

/// The words behind the claim, the begin and the completion of the first chunk.
fn filled(
    host: &HostTable,
    writer: &mut WriterSeat,
    service: &mut ServiceSeat,
) -> Option<(u64, u64, u64)>
    requires page { IsOnePage host.now }
    requires writer { IsFreshSeat host.now 0 writer.old }
    requires service { Attends host.now service.old }
    requires taken { HasTaken 0 service.old }
    ensures service { Attends host.now service.new }
    ensures taken { HasTaken 0 service.new }
{
    let claimed = host.claim_try(writer, 0)?;
    let claimed_word = word(host, service);
    let mut held = host.begin(writer, claimed, id_of(FROM, 0));
    let begun_word = word(host, service);
    let size = held.body.payload.len() as u32;
    host.publish(writer, &mut held, 0, size);
    host.complete(writer, held);
    let completed_word = word(host, service);
    Some((claimed_word, begun_word, completed_word))
}

/// The words behind the take and the release.
fn taken(host: &HostTable, service: &mut ServiceSeat) -> Option<(u64, u64)>
    requires page { IsOnePage host.now }
    requires service { Attends host.now service.old }
    requires taken { HasTaken 0 service.old }
{
    let Ok(taken) = host.take(service, 0, 1, id_of(FROM, 0)) else {
        return None;
    };
    let PageWord(taken_word) = host.look(service, 0).word;
    give_back(host, service, taken, 1, 0);
    let PageWord(released_word) = host.look(service, 0).word;
    Some((taken_word, released_word))
}

#[test]
fn the_page_word_says_how_a_chunk_is_used(rt: HostRuntime) -> Result<(), Fail> {
    let (host, seats, mut service) = make(rt.alloc())?;
    let Some((mut writer, _idle)) = both(&host, seats) else {
        return Err(Fail::new("a writer has no seat"));
    };
    let filled = filled(&host, &mut writer, &mut service);
    let taken = taken(&host, &mut service);
    assert_eq!(rt; filled, Some((0x1_5000_0000, 0x1_5000_0001, 0x1_5000_0003)));
    assert_eq!(rt; taken, Some((0x1_5000_0002, 0x5000_0000)));
    Ok(())
}
