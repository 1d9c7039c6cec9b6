ghost use Rattle.fd_json.specs.Rows.{row_json};

use crate::writer::{WritesJson, begin_object, end_object, member};
use fd_kinds::{NoMemory, Numbered};
use json::Writer;

impl WritesJson for Numbered {
    ghost json = { row_json };

    fn write(&self, out: &mut Writer) -> Result<(), NoMemory> {
        begin_object(out)?;
        member(out, "_tx", &self.number)?;
        member(out, "duration", &self.row.duration)?;
        member(out, "labels", &self.row.labels.pairs)?;
        member(out, "name", &self.row.name)?;
        member(out, "period", &self.row.period)?;
        member(out, "period_type", &self.row.period_type)?;
        member(out, "period_unit", &self.row.period_unit)?;
        member(out, "pprof_labels", &self.row.pprof_labels.pairs)?;
        member(out, "sample_type", &self.row.sample_type)?;
        member(out, "sample_unit", &self.row.sample_unit)?;
        member(out, "stack", &self.row.stack)?;
        member(out, "timestamp", &self.row.timestamp)?;
        member(out, "value", &self.row.value)?;
        end_object(out)
    }
}
