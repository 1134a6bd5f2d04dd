// Which types cross threads. Nothing calls these functions: that they are proved shows `Send` and `Sync`.
use crate::ShellState;

fn crosses<T: Send + Sync>(_value: &T) {}

fn states_cross(state: &ShellState) {
    crosses(state);
}
