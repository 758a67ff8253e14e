// What a port has besides: whether its AccessModeViolation alarm is on, and whether a pod is held there: 0, 1.
#[derive(Clone, Copy)]
pub struct Alarm {
    pub on: u8,
    pub held: u8,
}
