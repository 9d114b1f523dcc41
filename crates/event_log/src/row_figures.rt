//! The figures of a trail's rows, as metrics.

ghost use Rattle.std.specs.Prelude.{◌≡◌, ◌++◌, OnOk};
ghost use Rattle.event_log.specs.Metrics as metrics;

use crate::metrics::append_head;
use crate::text::{append, append_number, append_seconds};
use std::alloc::AllocError;

/// The rows of a served venue's trail, as they were last recorded.
#[derive(Clone, Copy)]
pub struct RowFigures {
    pub rows: u64,
    /// The time since the moment of the last row; none without a row.
    pub last_row_age_ms: Option<u64>,
    /// The greatest time from taking a message to the commit of its row, since the last figures.
    pub greatest_commit_ms: u64,
    /// The trail's path leads to no file, or to another one.
    pub is_gone: bool,
}

/// A metric of the rows.
#[derive(Clone, Copy)]
enum RowMetric {
    Rows,
    LastRowAge,
    GreatestCommit,
    TrailGone,
}

/// The value of a metric.
#[derive(Clone, Copy)]
enum Value {
    Count(u64),
    Milliseconds(u64),
}

impl RowMetric {
    fn name(self) -> &'static str
        ensures { result.now ≡ metrics.row_name_of self }
    {
        match self {
            RowMetric::Rows => "sef_rows",
            RowMetric::LastRowAge => "sef_last_row_age_seconds",
            RowMetric::GreatestCommit => "sef_greatest_commit_seconds",
            RowMetric::TrailGone => "sef_trail_gone",
        }
    }

    fn help(self) -> &'static str {
        match self {
            RowMetric::Rows => "Rows of the trail.",
            RowMetric::LastRowAge => "Time since the moment of the last row.",
            RowMetric::GreatestCommit => {
                "Greatest time from taking a message to the commit of its row, since the last file."
            }
            RowMetric::TrailGone =>
                "1 where the path of the trail leads to another file, or to none.",
        }
    }

    fn value(self, figures: &RowFigures) -> Option<Value>
        ensures { result ≡ metrics.value_of self figures.now }
    {
        match self {
            RowMetric::Rows => Some(Value::Count(figures.rows)),
            RowMetric::LastRowAge => match figures.last_row_age_ms {
                None => None,
                Some(age) => Some(Value::Milliseconds(age)),
            },
            RowMetric::GreatestCommit => Some(Value::Milliseconds(figures.greatest_commit_ms)),
            RowMetric::TrailGone => Some(Value::Count(if figures.is_gone { 1 } else { 0 })),
        }
    }
}

/// The metrics of the rows. All are gauges.
const ROW_METRICS: [RowMetric; 4] = [
    RowMetric::Rows,
    RowMetric::LastRowAge,
    RowMetric::GreatestCommit,
    RowMetric::TrailGone,
];

fn append_value(text: &mut Vec<u8>, value: Value) -> Result<(), AllocError>
    ensures { OnOk result (text.new.items ≡ text.old.items ++ metrics.value_text value) }
{
    match value {
        Value::Count(count) => append_number(text, b"", count),
        Value::Milliseconds(milliseconds) => append_seconds(text, milliseconds),
    }
}

fn append_row_metric(
    text: &mut Vec<u8>,
    metric: RowMetric,
    figures: &RowFigures,
) -> Result<(), AllocError> {
    let Some(value) = metric.value(figures) else {
        return Ok(());
    };
    let name = metric.name();
    append_head(text, name, metric.help(), "gauge")?;
    append(text, &[name.as_bytes(), b" "])?;
    append_value(text, value)?;
    append(text, &[b"\n"])
}

/// Appends each metric of the rows.
pub(crate) fn append_rows(text: &mut Vec<u8>, figures: &RowFigures) -> Result<(), AllocError> {
    for metric in ROW_METRICS {
        append_row_metric(text, metric, figures)?;
    }
    Ok(())
}
