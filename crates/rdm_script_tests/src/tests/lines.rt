//! Which line says which step.

use rdm_script::parse;

/// Scripts, the line of the setup of each, and the lines of its steps.
const ROWS: &[(&str, Option<usize>, &[usize])] = &[
    ("", None, &[]),
    ("# draw\n\n \t\r\n", None, &[]),
    ("draw", None, &[1]),
    ("draw\ndraw\n", None, &[1, 2]),
    ("draw\r\n\r\n# collect\r\n  collect\r\n", None, &[1, 4]),
    ("\n\ndraw\n\n#\ndraw\n\n", None, &[3, 6]),
    ("setup 0 8 advisory", Some(1), &[]),
    (
        "# setup 1 1 error\n\nsetup 0 8 error\ndraw\n\ndraw\n",
        Some(3),
        &[4, 6],
    ),
    (
        "#\n\tsetup 0 8 error\n#setup\nsettle 1\n#\npanel 1\ncollect",
        Some(2),
        &[4, 6, 7],
    ),
];

/// Lines are counted from 1, with those that say nothing.
#[test]
fn lines(rt: HostRuntime) {
    for (text, setup_line, lines) in ROWS {
        let script = parse(rt.alloc(), text.as_bytes()).expect(&rt, "a script");
        let told = (script.setup_line, script.lines.as_slice());
        assert!(rt; told == (*setup_line, *lines), "{text:?}");
    }
}
