//! The columns of ITEM, which no pages hold.

ghost use Rattle.std.specs.Prelude.{◌<◌, ◌≡◌, ◌++◌, All, IfOk, OnOk, map};
ghost use Rattle.hy_rows.specs.Rows.{item_values as values_of_item};
ghost use Rattle.hy_columns.specs.Columns.{column_at, values_of};
ghost use Rattle.hy_columns.specs.inside.Items.{IsWithin, items_in};

use crate::block::Block;
use crate::values::ColumnValues;
use hy_rows::Item;
use std::alloc::AllocError;

/// What reads a column of ITEM.
trait ItemColumn<'a>: Copy {
    ghost use Rattle.std.specs.Prelude.{◌≡◌};
    ghost use Rattle.hy_rows.specs.declared.item.Item.{Item};
    ghost use Rattle.hy_rows.specs.declared.value.Value.{Value};

    /// What a value is read as.
    type Output: Copy;

    /// The value that an item has.
    ghost value_in: { Item → Value };

    /// The value that was read.
    ghost value_of: { Self.Output → Value };

    /// The value of an item.
    fn read(&self, item: &'a Item) -> Self::Output
        ensures { value_of result ≡ value_in item.now };
}

/// I_ID.
#[derive(Clone, Copy)]
struct Id;

impl<'a> ItemColumn<'a> for Id {
    ghost use Rattle.std.specs.Prelude.{pos};
    ghost use Rattle.hy_rows.specs.declared.value.Value.TheVariants.{Whole};

    type Output = u64;

    ghost value_in = { λ item. Whole (pos item.id) };

    ghost value_of = { λ value. Whole (pos value) };

    fn read(&self, item: &'a Item) -> u64 {
        u64::from(item.id)
    }
}

/// I_IM_ID.
#[derive(Clone, Copy)]
struct Image;

impl<'a> ItemColumn<'a> for Image {
    ghost use Rattle.std.specs.Prelude.{pos};
    ghost use Rattle.hy_rows.specs.declared.value.Value.TheVariants.{Whole};

    type Output = u64;

    ghost value_in = { λ item. Whole (pos item.image) };

    ghost value_of = { λ value. Whole (pos value) };

    fn read(&self, item: &'a Item) -> u64 {
        u64::from(item.image)
    }
}

/// I_NAME.
#[derive(Clone, Copy)]
struct Name;

impl<'a> ItemColumn<'a> for Name {
    ghost use Rattle.hy_rows.specs.declared.value.Value.TheVariants.{Text};

    type Output = &'a [u8];

    ghost value_in = { λ item. Text item.name };

    ghost value_of = { λ value. Text value.now };

    fn read(&self, item: &'a Item) -> &'a [u8] {
        item.name.as_bytes()
    }
}

/// I_PRICE.
#[derive(Clone, Copy)]
struct Price;

impl<'a> ItemColumn<'a> for Price {
    ghost use Rattle.std.specs.Prelude.{pos};
    ghost use Rattle.hy_rows.specs.declared.value.Value.TheVariants.{Whole};

    type Output = u64;

    ghost value_in = { λ item. Whole (pos item.price) };

    ghost value_of = { λ value. Whole (pos value) };

    fn read(&self, item: &'a Item) -> u64 {
        u64::from(item.price)
    }
}

/// Reads the values of some items behind those that were read before.
fn read_items<'a, C: ItemColumn<'a>>(
    column: &C,
    items: &'a [Item],
    values: &mut Vec<C::Output>,
) -> Result<(), AllocError>
    ensures { OnOk result (map C.value_of values.new.items
        ≡ map C.value_of values.old.items ++ map C.value_in items.now) }
{
    values.reserve(items.len())?;
    for item in items {
        values.push_reserved(column.read(item));
    }
    Ok(())
}

/// The values of the items in some blocks, in a vector that is used again.
fn read_blocks<'a, C: ItemColumn<'a>>(
    column: C,
    items: &'a [Item],
    blocks: &[Block],
    values: Vec<C::Output>,
) -> Result<Vec<C::Output>, AllocError>
    requires { All (IsWithin items.now) blocks.now }
    ensures { IfOk result (λ values. map C.value_of values.items ≡ map C.value_in (items_in items.now blocks.now)) }
{
    let mut values = values;
    values.clear();
    for block in blocks {
        let items = &items[block.first..block.first + block.slots];
        read_items(&column, items, &mut values)?;
    }
    Ok(values)
}

/// The values of the column at a place of the items in some blocks, in a buffer that is used again. Only memory can lack.
pub(crate) fn item_values<'a>(
    items: &'a [Item],
    place: usize,
    blocks: &[Block],
    buffer: ColumnValues<'a>,
) -> Result<ColumnValues<'a>, AllocError>
    requires place { place < 4 }
    requires blocks { All (IsWithin items.now) blocks.now }
    ensures { IfOk result (λ found. values_of found
        ≡ column_at place (map values_of_item (items_in items.now blocks.now))) }
{
    let values = match place {
        0 => ColumnValues::Numbers(read_blocks(Id, items, blocks, buffer.into_numbers())?),
        1 => ColumnValues::Numbers(read_blocks(Image, items, blocks, buffer.into_numbers())?),
        2 => ColumnValues::Texts(read_blocks(Name, items, blocks, buffer.into_texts())?),
        _ => ColumnValues::Numbers(read_blocks(Price, items, blocks, buffer.into_numbers())?),
    };
    Ok(values)
}
