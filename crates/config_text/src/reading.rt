//! Reading a configuration.
ghost use Rattle.std.specs.Prelude.{◌≡◌, ◌≤◌, length, IfOk};
ghost use Rattle.trace_base.specs.declared.limits.TheConstants.{MAX_INPUT};
ghost use Rattle.text_form.specs.Machine.{items_or_line};
ghost use Rattle.config_text.specs.Collecting.{nothing_collected};
ghost use Rattle.config_text.specs.Collectors.{IsLaid};
ghost use Rattle.config_text.specs.Configs.{parts_of};
ghost use Rattle.config_text.specs.Answers.{collected_items, Collects, GivesConfig};
ghost use Rattle.config_text.specs.Writing.{IsWritable};

use crate::collector::Collector;
use crate::config::Config;
use crate::look_ups::LookUps;
use crate::reason::{ConfigFault, ConfigReason};
use std::alloc::{AllocError, Global};
use text_form::TextReader;
use trace_base::limits::MAX_INPUT;

/// The blocks of a text, once it was read to its end.
#[tactic(auto, using(crate::proofs::ReadLemmas::item_more))]
fn collected<'t>(alloc: Global, text: &'t [u8]) -> Result<Collector<'t>, ConfigFault>
    requires { length text.now ≤ MAX_INPUT }
    ensures collects { Collects result (collected_items nothing_collected (items_or_line text.now)) }
    ensures laid { IfOk result IsLaid }
{
    let mut reader = TextReader::new(text);
    let mut collector = Collector::new(alloc);
    'items: loop {
        match reader.next() {
            Ok(None) => return Ok(collector),
            Ok(Some(item)) => collector.take(item)?,
            Err(bad) => {
                let line = bad.line;
                let reason = ConfigReason::BadText;
                return Err(ConfigFault::BadConfig { line, reason });
            }
        }
    }
}

/// The configuration that a text spells; or its first fault.
pub fn read_config(alloc: Global, text: &[u8]) -> Result<Config, ConfigFault>
    requires { length text.now ≤ MAX_INPUT }
    ensures spells { GivesConfig text.now result }
    ensures writable { IfOk result (λ config. IsWritable (parts_of config)) }
{
    let collector = match collected(alloc, text) {
        Ok(collector) => collector,
        Err(fault) => return Err(fault),
    };
    let blocks = collector.ended.as_slice();
    let entries = collector.entries.as_slice();
    let look = LookUps::new(alloc, blocks)?;
    match look.judge(alloc, blocks, entries) {
        Ok(()) => {}
        Err(fault) => return Err(fault),
    }
    match look.config(alloc, blocks, entries) {
        Ok(config) => Ok(config),
        Err(AllocError) => Err(ConfigFault::OutOfMemory),
    }
}
