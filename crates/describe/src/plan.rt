// What a run sheet sets up, as the ring's own plan.
use setup::plan::Plan;
use sheet::setup::Setup;

// How many messages the wire of a sheet's ring holds, and how many parties a sheet may have.
pub const CAPACITY: usize = 1000;

pub const MOST_PARTIES: usize = 8;

// The plan of a ring with the numbers and the own values of a sheet.
pub fn plan_of<V>(setup: &Setup<V>) -> Plan<V> {
    Plan {
        n: setup.parties,
        f: setup.faults,
        faulty: setup.faulty,
        own: &setup.own,
    }
}
