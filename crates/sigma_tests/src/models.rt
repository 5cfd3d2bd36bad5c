//! The model texts that several files of tests share.

pub const ONE: &[u8] =
    b"model ONE;\nvar N : 0..9 = 0;\nwatch N;\nvertex RUN {\n  set N := 4;\n  schedule RUN after 5 when false;\n}\nend\n";

/// What `reduce` writes of it.
pub const ONE_WRITTEN: &[u8] =
    b"model ONE;\nvar N : 0..9 = 0;\nwatch N;\nvertex RUN {\n  set N := 4;\n}\nend\ncertificate\nprune RUN 1\nend\n";

/// The two, one after the other.
pub const ONE_DOCUMENT: &[u8] =
    b"model ONE;\nvar N : 0..9 = 0;\nwatch N;\nvertex RUN {\n  set N := 4;\n  schedule RUN after 5 when false;\n}\nend\nmodel ONE;\nvar N : 0..9 = 0;\nwatch N;\nvertex RUN {\n  set N := 4;\n}\nend\ncertificate\nprune RUN 1\nend\n";

pub const BANK: &[u8] =
    b"model BANK;\nvar QUEUE : 0..1000000 = 0;\nvar IDLE : 0..2 = 0;\nvar GAP : 1..6 = 1;\nvar SEEN : 0..1000000 clip = 0;\nwatch QUEUE, IDLE;\nvertex RUN(IDLE) {\n  urgent ENTER;\n}\nvertex ENTER {\n  set QUEUE, SEEN := QUEUE + 1, SEEN + 1;\n  draw GAP from 54 in 1..6;\n  schedule ENTER after GAP;\n  urgent START when IDLE > 0;\n}\nvertex START {\n  set QUEUE, IDLE := QUEUE - 1, IDLE - 1;\n  schedule LEAVE after 7;\n}\nvertex LEAVE {\n  set IDLE := IDLE + 1;\n  urgent START when QUEUE > 0;\n}\nend\n";

/// A variable that stops at its end.
pub const CLOCK: &[u8] =
    b"model CLOCK;\nvar N : 0..3 clip = 0;\nwatch N;\nvertex RUN {\n  set N := N + 1;\n  schedule RUN after 5;\n}\nend\n";

/// The clock after two events.
pub const CLOCK_SAVED: &[u8] =
    b"model CLOCK;\nvar N : 0..3 clip = 0;\nwatch N;\nvertex RUN {\n  set N := N + 1;\n  schedule RUN after 5;\n}\nend\nsnapshot\nseed 0 42\nclk 5\nevents 2\nvalue N 2\nnoted 1\npending 5 5 RUN\nend\n";
