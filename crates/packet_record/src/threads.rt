// Which types cross threads. Nothing calls these functions: that they are proved shows `Send` and `Sync`.
use crate::{Flow, PackedSchedule, Schedule, SharedSchedule};

fn crosses<T: Send + Sync>(_value: &T) {}

fn schedules_cross(schedule: &Schedule, packed: &PackedSchedule, shared: &SharedSchedule) {
    crosses(schedule);
    crosses(packed);
    crosses(shared);
}

fn flows_cross(flow: &Flow) {
    crosses(flow);
}
