// Reading bytes from their front: a reader holds those that are left.

mod blocks;
mod entries;
mod rows;

#[derive(Drop)]
pub struct Reader<'a> {
    rest: &'a [u8],
}
