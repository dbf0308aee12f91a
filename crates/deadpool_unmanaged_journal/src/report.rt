//! How a pool stands, and how often each thing has happened in it, as text for Prometheus.
use crate::Tally;
use deadpool_unmanaged::Status;
use std::fmt;

/// How a pool stands, and how often each thing has happened in it, under the pool's name.
///
/// It is printed as Prometheus reads it: above each figure what kind it is, the name as the label `pool`, and for
/// objects that were given up the cause as another. Each line ends with a line end.
#[derive(Debug, Drop)]
pub struct Report<'a> {
    pub name: &'a str,
    pub tally: Tally,
    pub status: Status,
}

impl fmt::Display for Report<'_> {
    fn fmt<W: fmt::Write>(&self, f: &mut fmt::Formatter<W>) -> fmt::Result {
        self.write_status(f)?;
        self.write_gets(f)?;
        self.write_adds(f)?;
        self.write_given_up(f)
    }
}

impl Report<'_> {
    fn write_status<W: fmt::Write>(&self, f: &mut fmt::Formatter<W>) -> fmt::Result {
        let Status {
            max_size,
            size,
            available,
            waiting,
        } = self.status;
        self.write_gauge(f, "max_size", max_size)?;
        self.write_gauge(f, "size", size)?;
        self.write_gauge(f, "available", available)?;
        self.write_gauge(f, "waiting", waiting)
    }

    fn write_gets<W: fmt::Write>(&self, f: &mut fmt::Formatter<W>) -> fmt::Result {
        self.write_count(f, "gets", self.tally.gets)?;
        self.write_count(f, "gets_served", self.tally.served)?;
        self.write_count(f, "gets_waited", self.tally.waited)?;
        self.write_count(f, "gets_late", self.tally.late)?;
        self.write_count(f, "gets_crowded", self.tally.crowded)?;
        self.write_count(f, "gets_closed", self.tally.closed)
    }

    fn write_adds<W: fmt::Write>(&self, f: &mut fmt::Formatter<W>) -> fmt::Result {
        self.write_count(f, "adds", self.tally.adds)?;
        self.write_count(f, "adds_stored", self.tally.stored)?;
        self.write_count(f, "adds_waited", self.tally.adds_waited)?;
        self.write_count(f, "adds_full", self.tally.adds_full)?;
        self.write_count(f, "adds_crowded", self.tally.adds_crowded)?;
        self.write_count(f, "adds_closed", self.tally.adds_closed)
    }

    fn write_given_up<W: fmt::Write>(&self, f: &mut fmt::Formatter<W>) -> fmt::Result {
        f.write_str("# TYPE pool_given_up_total counter\n")?;
        self.write_cause(f, "taken", self.tally.taken)?;
        self.write_cause(f, "dropped", self.tally.dropped)
    }

    // A figure that rises and falls.
    fn write_gauge<W: fmt::Write>(
        &self,
        f: &mut fmt::Formatter<W>,
        what: &str,
        figure: usize,
    ) -> fmt::Result {
        write!(f, "# TYPE pool_{what} gauge\npool_{what}{{pool=\"")?;
        write_label(f, self.name)?;
        write!(f, "\"}} {figure}\n")
    }

    // A count, which only rises.
    fn write_count<W: fmt::Write>(
        &self,
        f: &mut fmt::Formatter<W>,
        what: &str,
        count: u64,
    ) -> fmt::Result {
        write!(
            f,
            "# TYPE pool_{what}_total counter\npool_{what}_total{{pool=\""
        )?;
        write_label(f, self.name)?;
        write!(f, "\"}} {count}\n")
    }

    // How many objects were given up for one cause.
    fn write_cause<W: fmt::Write>(
        &self,
        f: &mut fmt::Formatter<W>,
        cause: &str,
        count: u64,
    ) -> fmt::Result {
        f.write_str("pool_given_up_total{pool=\"")?;
        write_label(f, self.name)?;
        write!(f, "\",cause=\"{cause}\"}} {count}\n")
    }
}

// A label's value: what would end it, or a line, is written with a backslash before it.
fn write_label<W: fmt::Write>(f: &mut fmt::Formatter<W>, value: &str) -> fmt::Result {
    for letter in value.chars() {
        match letter {
            '\\' => f.write_str("\\\\")?,
            '"' => f.write_str("\\\"")?,
            '\n' => f.write_str("\\n")?,
            _ => write!(f, "{letter}")?,
        }
    }
    Ok(())
}
