// The cases that the tests begin with.
use session::replaying::Order;

// Over congruence over linear: the switches 1 and 2, and four measures, with f(m1) = m2 and f(m3) = m4.
// The atoms: 3 is m1 + m2 ≤ 60, 4 is m1 < 50, 5 is m2 < 12, 6 is m1 = m3, and 7 is m2 = m4.
pub const DRAFT: [Order<'static>; 8] = [
    Order::Counts(2, 4),
    Order::Declare(&[3, 7, 1, 1, 2]),
    Order::Declare(&[3, 7, 1, 3, 4]),
    Order::Admit(&[2, 2, 1, 0, 0, 0, 1, 2, 0, 0, 0, 1, 0, 0, 0, 60]),
    Order::Admit(&[1, 1, 1, 0, 0, 0, 1, 0, 0, 0, 50]),
    Order::Admit(&[1, 1, 2, 0, 0, 0, 1, 0, 0, 0, 12]),
    Order::Admit(&[3, 2, 1, 0, 0, 0, 1, 3, 255, 255, 255, 255, 0, 0, 0, 0]),
    Order::Admit(&[3, 2, 2, 0, 0, 0, 1, 4, 255, 255, 255, 255, 0, 0, 0, 0]),
];

// Over switches only: four rules on two switches of three, which no arrangement meets, and a conflict that comes of a
// choice.
pub const CLASH: [Order<'static>; 9] = [
    Order::Counts(3, 0),
    Order::Rule(&[1, 2]),
    Order::Rule(&[1, -2]),
    Order::Rule(&[-1, 2]),
    Order::Rule(&[-1, -2]),
    Order::Seal(1),
    Order::Choose(1),
    Order::Propagate(3, 2),
    Order::Conflict(4),
];
