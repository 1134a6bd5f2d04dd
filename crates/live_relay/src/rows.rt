// The rows of a relay.
ghost use Rattle.std.specs.Prelude.{◌≡◌, List};
ghost use Rattle.packet_record.specs.declared.packet.Row.{Row as RowValue};

use packet_record::Row;
use std::marker::Model;

/// The rows of a relay, in the order in which their datagrams were received. Contracts see it as the list of them.
#[derive(Drop)]
pub struct RelayRows {
    rows: Vec<Row>,
}

impl Model for RelayRows {
    ghost Value = { List RowValue };

    ghost view = { λ r. r.rows.items };
}

impl RelayRows {
    /// These rows. It takes no memory.
    pub fn from_vec(rows: Vec<Row>) -> Self
        ensures { result ≡ rows.items }
    {
        RelayRows { rows }
    }

    /// The rows.
    pub fn as_slice(&self) -> &[Row]
        ensures { result.now ≡ self.now }
    {
        self.rows.as_slice()
    }

    /// The rows, given back. It takes no memory.
    pub fn into_vec(self) -> Vec<Row>
        ensures { result.items ≡ self }
    {
        self.rows
    }
}
