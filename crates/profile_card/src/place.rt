use port_table::PortMode;

/// Where a card stands: its port, counted from 0, and how the ports are shared.
#[derive(Clone, Copy, Debug, PartialEq, Eq)]
pub struct Place {
    pub port: u8,
    pub mode: PortMode,
}
