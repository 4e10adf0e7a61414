//! Writing a configuration.
ghost use Rattle.std.specs.Prelude.{◌≡◌, ◌-◌, ◌<◌, ◌≤◌, ◌++◌, codes, length, OnOk, OnErr};
ghost use Rattle.std.specs.List.{All, flat_map};
ghost use Rattle.byte_io.specs.Bytes.{after_told, CountsFaults, TakesPart};
ghost use Rattle.config_text.specs.Configs.{parts_of};
ghost use Rattle.config_text.specs.Writing as writing;
ghost use Rattle.config_text.specs.Writing.{buffer_line, producer_line, name_of, source_line, written_config, HasNumber, IsWritable};

use crate::config::{Config, ConfigBuffer, ConfigProducer, ConfigSource};
use arrayvec::ArrayVec;
use byte_io::put::{WriteFault, put_all};
use byte_io::traits::Sink;
use trace_base::policy::FullPolicy;

/// The policy, and the end of a buffer's line.
#[tactic(auto, unfolding(crate::specs::Writing::policy_end))]
fn policy_end(policy: FullPolicy) -> &'static [u8]
    ensures { result.now ≡ writing.policy_end policy }
{
    match policy {
        FullPolicy::Ring => b"RING_BUFFER }\n",
        FullPolicy::Discard => b"DISCARD }\n",
    }
}

/// What stands before the name of a producer.
#[tactic(auto, unfolding(crate::specs::Writing::producer_head))]
fn producer_head() -> &'static [u8]
    ensures { result.now ≡ writing.producer_head }
{
    b"producers { producer_name: \""
}

/// What stands before the name of a source.
#[tactic(auto, unfolding(crate::specs::Writing::source_head))]
fn source_head() -> &'static [u8]
    ensures { result.now ≡ writing.source_head }
{
    b"data_sources { config { name: \""
}

/// A number between two texts.
#[tactic(auto, unfolding(crate::specs::Writing::numbered))]
fn numbered(before: &[u8], number: u32, behind: &[u8]) -> ArrayVec<u8, 64>
    requires before { length before.now ≤ 26 }
    requires behind { length behind.now ≤ 26 }
    ensures { result.items ≡ writing.numbered before.now number behind.now }
{
    let mut digits = itoa::Buffer::new();
    let mut bytes = ArrayVec::new();
    let _ = bytes.try_extend_from_slice(before);
    let _ = bytes.try_extend_from_slice(digits.format(number).as_bytes());
    let _ = bytes.try_extend_from_slice(behind);
    bytes
}

/// Writes two texts, one behind the other.
#[tactic(auto, using(byte_io::proofs::Told::part_first, byte_io::proofs::Told::part_second, byte_io::proofs::Told::after_told_again))]
fn put_two<O: Sink>(out: &mut O, a: &[u8], b: &[u8]) -> Result<(), WriteFault>
    requires { O.may_write out.old }
    ensures all { OnOk result (O.taken out.new ≡ after_told (O.taken out.old) (a.now ++ b.now)) }
    ensures part { OnErr result (TakesPart (O.taken out.old) (O.taken out.new) (a.now ++ b.now)) }
    ensures count { CountsFaults (O.faults out.old) (O.faults out.new) result }
    ensures goes_on { OnOk result (O.may_write out.new) }
{
    put_all(out, a)?;
    put_all(out, b)
}

/// Writes three texts, one behind another.
#[tactic(auto, using(byte_io::proofs::Told::part_first, byte_io::proofs::Told::part_second, byte_io::proofs::Told::after_told_again))]
fn put_three<O: Sink>(out: &mut O, a: &[u8], b: &[u8], c: &[u8]) -> Result<(), WriteFault>
    requires { O.may_write out.old }
    ensures all { OnOk result (O.taken out.new ≡ after_told (O.taken out.old) (a.now ++ (b.now ++ c.now))) }
    ensures part { OnErr result (TakesPart (O.taken out.old) (O.taken out.new) (a.now ++ (b.now ++ c.now))) }
    ensures count { CountsFaults (O.faults out.old) (O.faults out.new) result }
    ensures goes_on { OnOk result (O.may_write out.new) }
{
    put_all(out, a)?;
    put_two(out, b, c)
}

#[tactic(auto, using(byte_io::proofs::Told::part_first, byte_io::proofs::Told::part_second, byte_io::proofs::Told::after_told_again))]
fn put_buffer<O: Sink>(out: &mut O, buffer: &ConfigBuffer) -> Result<(), WriteFault>
    requires { O.may_write out.old }
    ensures all { OnOk result (O.taken out.new ≡ after_told (O.taken out.old) (buffer_line buffer.now)) }
    ensures part { OnErr result (TakesPart (O.taken out.old) (O.taken out.new) (buffer_line buffer.now)) }
    ensures count { CountsFaults (O.faults out.old) (O.faults out.new) result }
    ensures goes_on { OnOk result (O.may_write out.new) }
{
    let size = numbered(b"buffers { size_kb: ", buffer.size_kb, b" fill_policy: ");
    put_two(out, &size, policy_end(buffer.policy))
}

#[tactic(auto, using(byte_io::proofs::Told::part_first, byte_io::proofs::Told::part_second, byte_io::proofs::Told::after_told_again))]
fn put_producer<O: Sink>(out: &mut O, producer: &ConfigProducer) -> Result<(), WriteFault>
    requires { O.may_write out.old }
    ensures all { OnOk result (O.taken out.new ≡ after_told (O.taken out.old) (producer_line producer.now)) }
    ensures part { OnErr result (TakesPart (O.taken out.old) (O.taken out.new) (producer_line producer.now)) }
    ensures count { CountsFaults (O.faults out.old) (O.faults out.new) result }
    ensures goes_on { OnOk result (O.may_write out.new) }
{
    let memory = numbered(
        b"\" shm_size_kb: ",
        producer.shm_size_kb,
        b" page_size_kb: ",
    );
    let page = numbered(b"", producer.page_size_kb, b" }\n");
    put_all(out, producer_head())?;
    put_three(out, producer.name.as_bytes(), &memory, &page)
}

/// What stands between the name of a source and that of its producer.
fn source_middle(source: &ConfigSource) -> ArrayVec<u8, 64>
    ensures { result.items ≡ writing.source_middle source.now }
{
    let target = u32::from(source.target_buffer);
    numbered(
        b"\" target_buffer: ",
        target,
        b" } producer_name_filter: \"",
    )
}

/// The name of a source's producer.
#[tactic(auto, using(crate::proofs::PutLemmas::named))]
fn producer_name<'c>(producers: &'c [ConfigProducer], source: &ConfigSource) -> &'c [u8]
    requires { HasNumber producers.now source.now }
    ensures { result.now ≡ name_of producers.now source.now.producer }
{
    let producer = &producers[usize::from(source.producer) - 1];
    producer.name.as_bytes()
}

/// Writes what stands before and behind a name, the name between them, and the name of a producer in a filter.
#[tactic(auto, using(byte_io::proofs::Told::part_first, byte_io::proofs::Told::part_second, byte_io::proofs::Told::after_told_again))]
fn put_named<O: Sink>(
    out: &mut O,
    head: &[u8],
    name: &[u8],
    middle: &[u8],
    owner: &[u8],
) -> Result<(), WriteFault>
    requires { O.may_write out.old }
    ensures all { OnOk result (O.taken out.new
        ≡ after_told (O.taken out.old) (head.now ++ (name.now ++ (middle.now ++ (owner.now ++ codes "\" }\n"))))) }
    ensures part { OnErr result (TakesPart (O.taken out.old) (O.taken out.new)
        (head.now ++ (name.now ++ (middle.now ++ (owner.now ++ codes "\" }\n"))))) }
    ensures count { CountsFaults (O.faults out.old) (O.faults out.new) result }
    ensures goes_on { OnOk result (O.may_write out.new) }
{
    put_all(out, head)?;
    put_all(out, name)?;
    put_three(out, middle, owner, b"\" }\n")
}

#[tactic(auto, using(byte_io::proofs::Told::part_first, byte_io::proofs::Told::part_second, byte_io::proofs::Told::after_told_again))]
fn put_source<O: Sink>(
    out: &mut O,
    producers: &[ConfigProducer],
    source: &ConfigSource,
) -> Result<(), WriteFault>
    requires number { HasNumber producers.now source.now }
    requires may { O.may_write out.old }
    ensures all { OnOk result (O.taken out.new ≡ after_told (O.taken out.old) (source_line producers.now source.now)) }
    ensures part { OnErr result (TakesPart (O.taken out.old) (O.taken out.new) (source_line producers.now source.now)) }
    ensures count { CountsFaults (O.faults out.old) (O.faults out.new) result }
    ensures goes_on { OnOk result (O.may_write out.new) }
{
    let middle = source_middle(source);
    let owner = producer_name(producers, source);
    put_named(out, source_head(), source.name.as_bytes(), &middle, owner)
}

#[tactic(auto, using(byte_io::proofs::Told::after_told_nothing))]
fn put_buffers<O: Sink>(out: &mut O, buffers: &[ConfigBuffer]) -> Result<(), WriteFault>
    requires { O.may_write out.old }
    ensures all { OnOk result (O.taken out.new ≡ after_told (O.taken out.old) (flat_map buffer_line buffers.now)) }
    ensures part { OnErr result (TakesPart (O.taken out.old) (O.taken out.new) (flat_map buffer_line buffers.now)) }
    ensures count { CountsFaults (O.faults out.old) (O.faults out.new) result }
    ensures goes_on { OnOk result (O.may_write out.new) }
{
    for buffer in buffers {
        put_buffer(out, buffer)?;
    }
    Ok(())
}

#[tactic(auto, using(byte_io::proofs::Told::after_told_nothing))]
fn put_producers<O: Sink>(out: &mut O, producers: &[ConfigProducer]) -> Result<(), WriteFault>
    requires { O.may_write out.old }
    ensures all { OnOk result (O.taken out.new ≡ after_told (O.taken out.old) (flat_map producer_line producers.now)) }
    ensures part { OnErr result (TakesPart (O.taken out.old) (O.taken out.new) (flat_map producer_line producers.now)) }
    ensures count { CountsFaults (O.faults out.old) (O.faults out.new) result }
    ensures goes_on { OnOk result (O.may_write out.new) }
{
    for producer in producers {
        put_producer(out, producer)?;
    }
    Ok(())
}

#[tactic(auto, using(byte_io::proofs::Told::after_told_nothing))]
fn put_sources<O: Sink>(
    out: &mut O,
    producers: &[ConfigProducer],
    sources: &[ConfigSource],
) -> Result<(), WriteFault>
    requires numbers { All (HasNumber producers.now) sources.now }
    requires may { O.may_write out.old }
    ensures all { OnOk result (O.taken out.new ≡ after_told (O.taken out.old) (flat_map (source_line producers.now) sources.now)) }
    ensures part { OnErr result (TakesPart (O.taken out.old) (O.taken out.new) (flat_map (source_line producers.now) sources.now)) }
    ensures count { CountsFaults (O.faults out.old) (O.faults out.new) result }
    ensures goes_on { OnOk result (O.may_write out.new) }
{
    for source in sources {
        put_source(out, producers, source)?;
    }
    Ok(())
}

/// Writes a configuration as a text that spells it: a line for each block.
#[tactic(auto, using(byte_io::proofs::Told::part_first, byte_io::proofs::Told::part_second, byte_io::proofs::Told::after_told_again, crate::proofs::PutLemmas::all_numbered))]
pub fn put_config<O: Sink>(out: &mut O, config: &Config) -> Result<(), WriteFault>
    requires writable { IsWritable (parts_of config.now) }
    requires may { O.may_write out.old }
    ensures all { OnOk result (O.taken out.new ≡ after_told (O.taken out.old) (written_config (parts_of config.now))) }
    ensures part { OnErr result (TakesPart (O.taken out.old) (O.taken out.new) (written_config (parts_of config.now))) }
    ensures count { CountsFaults (O.faults out.old) (O.faults out.new) result }
    ensures goes_on { OnOk result (O.may_write out.new) }
{
    put_buffers(out, &config.buffers)?;
    put_producers(out, &config.producers)?;
    put_sources(out, &config.producers, &config.sources)
}
