// What no request uses of the second block.
use handled::layout::ALARMS_END;
use image::layout::TOOL_BYTES;

pub const UNUSED_START: usize = ALARMS_END;

pub const UNUSED_BYTES: usize = TOOL_BYTES - UNUSED_START;
