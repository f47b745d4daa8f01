//! What is written of the status messages that come at their times.

ghost use Rattle.std.specs.Prelude.{◌≡◌, None, Some, IfSome, IsTrue, option_map};
ghost use Rattle.toml.specs.View.{view};
ghost use Rattle.rdm_fixture.specs.Describable.{is_noticed};
ghost use Rattle.rdm_fixture.specs.Notices.{IsNotice, comes_again};
ghost use Rattle.rdm_fixture.specs.Outcomes.{only_number};
ghost use Rattle.rdm_fixture.specs.Writing.{IsPlain};
ghost use Rattle.rdm_fixture_keys.specs.Keys.{may};

use super::fields::{ToEntry, put, put_long, put_name, put_word};
use rdm_courses::Notice;
use std::alloc::{AllocError, Global};
use toml::{Table, Value};

impl ToEntry for Notice {
    ghost says = { λ _. IsNotice };

    ghost can = { λ _ n. IsTrue (is_noticed n) };

    ghost deep = { 1 };

    fn to_entry(&self, alloc: Global) -> Result<Table, AllocError> {
        let mut table = Table::new(alloc);
        put_long(alloc, &mut table, "at", self.at)?;
        put(alloc, &mut table, "every", every_of(self.every))?;
        put_word(alloc, &mut table, "sub_device", self.sub)?;
        put_name(alloc, &mut table, "severity", self.severity.name())?;
        put_word(alloc, &mut table, "status_id", self.id)?;
        put_word(alloc, &mut table, "data_value_1", self.v1)?;
        put_word(alloc, &mut table, "data_value_2", self.v2)?;
        Ok(table)
    }
}

/// After how many seconds it comes again, if it does.
fn every_of(every: Option<u32>) -> Option<Value>
    ensures says { IsTrue (comes_again every) → may None (only_number 1 0xFFFFFFFF) (option_map view result) ≡ Some every }
    ensures plain { IfSome result (λ v. IsPlain 0 (view v)) }
{
    match every {
        Some(every) => Some(Value::from(every)),
        None => None,
    }
}
