// A logged store's four turns back to back.
ghost use Rattle.std.specs.Prelude.{◌≡◌, ◌-◌, ◌<◌, length};
ghost use Rattle.image.specs.Inner.Inside.{Inside};
ghost use Rattle.stretch.specs.Inner.Logged.{with_target};

use image::Field;

// The address and the value go to the entry that is not active, then the pc names it, then v goes to its target. The words to store are known
// before the first store: no store here is where one of them is read. The stores left are kept in a local meanwhile, so that they stay in a register.
pub fn stores(image: &mut [u64], d: usize, s: u8, own: usize, target: usize, v: u64, left: &mut u64)
    requires { (Inside own image.old d) × (target < length image.old) }
    ensures image { image.new ≡ with_target own d s target v image.old left.old }
    ensures left { left.new ≡ left.old - 1 - 1 - 1 - 1 }
{
    let address = image::field_index(worklog::spare(image, d, own).addr, d, own);
    let value = image::value_index(address);
    let pc = worklog::switched(image, d, own, s);
    let mut rest = *left;
    image::store_inside(image, address, target as u64, &mut rest);
    image::store_inside(image, value, v, &mut rest);
    image::store_inside(image, image::field_index(Field::Pc, d, own), pc, &mut rest);
    image::store_inside(image, target, v, &mut rest);
    *left = rest;
}
