// Shapes of panels.
use shapes::plain::Plain;
use shapes::sides::{Clear, Side};
use shapes::stairs::{Stairs, Step};

#[test]
fn shapes_are_made_within_their_limits(rt: HostRuntime) {
    assert!(rt; Plain::new(1, 4096).is_ok() && Plain::new(4096, 1).is_ok());
    assert!(rt; Plain::new(0, 1).is_err() && Plain::new(1, 4097).is_err());
    let step = Step {
        rows: 10,
        extent: 30,
    };
    assert!(rt; Stairs::new(30, &[step; 16]).is_ok());
    assert!(rt; Stairs::new(29, &[step]).is_err() && Stairs::new(30, &[step; 17]).is_err());
}

#[test]
fn sides_that_are_cleared(rt: HostRuntime) {
    assert!(rt; Clear::Both.clears(Side::Left) && Clear::Both.clears(Side::Right));
    assert!(rt; Clear::Left.clears(Side::Left) && !Clear::Left.clears(Side::Right));
    assert!(rt; !Clear::None.clears(Side::Left));
}
