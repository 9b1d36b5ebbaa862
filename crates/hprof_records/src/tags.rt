//! The tags of records, and of the sub-records in the body of a heap dump.

/// UTF8, a name.
pub const UTF8: u8 = 0x01;

/// LOAD CLASS.
pub const LOAD_CLASS: u8 = 0x02;

/// TRACE, a stack trace.
pub const TRACE: u8 = 0x05;

/// HEAP DUMP, a whole one.
pub const HEAP_DUMP: u8 = 0x0c;

/// HEAP DUMP SEGMENT.
pub const HEAP_DUMP_SEGMENT: u8 = 0x1c;

/// HEAP DUMP END.
pub const HEAP_DUMP_END: u8 = 0x2c;

/// CLASS DUMP, a sub-record as all below.
pub const CLASS_DUMP: u8 = 0x20;

/// INSTANCE DUMP.
pub const INSTANCE_DUMP: u8 = 0x21;

/// OBJECT ARRAY DUMP.
pub const OBJECT_ARRAY_DUMP: u8 = 0x22;

/// PRIMITIVE ARRAY DUMP.
pub const PRIMITIVE_ARRAY_DUMP: u8 = 0x23;

/// ROOT JNI GLOBAL.
pub const ROOT_JNI_GLOBAL: u8 = 0x01;

/// ROOT JNI LOCAL.
pub const ROOT_JNI_LOCAL: u8 = 0x02;

/// ROOT JAVA FRAME.
pub const ROOT_JAVA_FRAME: u8 = 0x03;

/// ROOT NATIVE STACK.
pub const ROOT_NATIVE_STACK: u8 = 0x04;

/// ROOT STICKY CLASS.
pub const ROOT_STICKY_CLASS: u8 = 0x05;

/// ROOT THREAD BLOCK.
pub const ROOT_THREAD_BLOCK: u8 = 0x06;

/// ROOT MONITOR USED.
pub const ROOT_MONITOR_USED: u8 = 0x07;

/// ROOT THREAD OBJECT.
pub const ROOT_THREAD_OBJECT: u8 = 0x08;

/// ROOT UNKNOWN.
pub const ROOT_UNKNOWN: u8 = 0xff;
