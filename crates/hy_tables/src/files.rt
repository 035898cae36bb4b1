//! The nine files of a database: reading a load from their texts, and the texts of a load.

ghost use Rattle.std.specs.Prelude.{◌≡◌, ◌⊎◌, IfOk, IsTrue, MatchResult, map, true};
ghost use Rattle.hy_csv.specs.Texts.{table_text};
ghost use Rattle.hy_schema.specs.declared.refusal.LoadFault.{LoadFault};
ghost use Rattle.hy_schema.specs.declared.refusal.Refusal.TheVariants as refusals;
ghost use Rattle.hy_schema.specs.Loads.{HasFault, IsLoad, all_whole};
ghost use Rattle.hy_loads.specs.Checks.{IsRefusalOf};
ghost use Rattle.hy_tables.specs.Files.{end_of, ends_read, lists_read, readings_of, texts_of};

use hy_csv::{read, reads_back, write};
use hy_loads::Load;
use hy_rows::{
    Customer, District, History, Item, Listed, Lists, NewOrder, Order, OrderLine, PerTable, Stock,
    TABLES, Tables, Warehouse,
};
use hy_schema::{FileEnd, Refusal};
use std::alloc::{AllocError, Global};

/// The load that nine texts say: those of the files of WAREHOUSE, DISTRICT, CUSTOMER, ITEM, STOCK, ORDER, NEW-ORDER,
/// ORDER-LINE and HISTORY, in this order. E12 names the first broken row, in this order, or else the first broken
/// consistency condition; a file whose first record is no header of its table breaks at row 0. E1 where memory is
/// refused.
pub fn load(alloc: Global, texts: &[&[u8]; TABLES]) -> Result<Load, Refusal>
    ensures { let readings = readings_of (map (λ text. text.now) texts.now) in
        MatchResult result
        (λ load. (load ≡ lists_read readings) × (ends_read readings ≡ all_whole) × IsLoad (lists_read readings))
        (IsRefusalOf (ends_read readings) (lists_read readings)) }
{
    let warehouses = read(alloc, texts[0])?;
    let districts = read(alloc, texts[1])?;
    let customers = read(alloc, texts[2])?;
    let items = read(alloc, texts[3])?;
    let stock = read(alloc, texts[4])?;
    let orders = read(alloc, texts[5])?;
    let new_orders = read(alloc, texts[6])?;
    let order_lines = read(alloc, texts[7])?;
    let history = read(alloc, texts[8])?;
    let ends = PerTable {
        warehouses: end_of(warehouses.unread),
        districts: end_of(districts.unread),
        customers: end_of(customers.unread),
        items: end_of(items.unread),
        stock: end_of(stock.unread),
        orders: end_of(orders.unread),
        new_orders: end_of(new_orders.unread),
        order_lines: end_of(order_lines.unread),
        history: end_of(history.unread),
    };
    let lists = Lists {
        items: items.rows,
        tables: Tables {
            warehouses: warehouses.rows,
            districts: districts.rows,
            customers: customers.rows,
            history: history.rows,
            new_orders: new_orders.rows,
            orders: orders.rows,
            order_lines: order_lines.rows,
            stock: stock.rows,
        },
    };
    Load::of_files(alloc, lists, ends)
}

/// How far a file was read, by the number of the first record that is no row.
fn end_of(unread: Option<u64>) -> FileEnd
    ensures { result ≡ end_of unread }
{
    match unread {
        None => FileEnd::Whole,
        Some(0) => FileEnd::BadHeader,
        Some(_) => FileEnd::BadRecord,
    }
}

/// The nine texts of a load, in the order in which `load` takes them: each the names of the columns, and then the rows as
/// `Load::list` gives them.
pub fn save(alloc: Global, load: &Load) -> Result<[Vec<u8>; TABLES], AllocError>
    ensures { IfOk result (λ texts. map (λ text. text.items) texts ≡ texts_of load.now) }
{
    Ok([
        text_of::<Warehouse>(alloc, load)?,
        text_of::<District>(alloc, load)?,
        text_of::<Customer>(alloc, load)?,
        text_of::<Item>(alloc, load)?,
        text_of::<Stock>(alloc, load)?,
        text_of::<Order>(alloc, load)?,
        text_of::<NewOrder>(alloc, load)?,
        text_of::<OrderLine>(alloc, load)?,
        text_of::<History>(alloc, load)?,
    ])
}

/// The text of one table's rows.
fn text_of<R: Listed>(alloc: Global, load: &Load) -> Result<Vec<u8>, AllocError>
    ensures { IfOk result
        (λ text. text.items ≡ table_text R.TABLE (λ row. row) (map R.values_of (R.list_in load.now))) }
{
    write::<R>(alloc, load.list())
}

/// What is saved loads again as the same load: the texts of a load say its rows, whole, and have no fault.
pub fn saved_loads_again(load: &Load)
    ensures rows { lists_read (readings_of (texts_of load.now)) ≡ load.now }
    ensures whole { ends_read (readings_of (texts_of load.now)) ≡ all_whole }
    ensures sound { let readings = readings_of (texts_of load.now) in
        (fault : LoadFault) → HasFault (ends_read readings) (lists_read readings) fault → ⊥ }
{
    load.sound();
    reads_back::<Warehouse>(load.list());
    reads_back::<District>(load.list());
    reads_back::<Customer>(load.list());
    reads_back::<Item>(load.list());
    reads_back::<Stock>(load.list());
    reads_back::<Order>(load.list());
    reads_back::<NewOrder>(load.list());
    reads_back::<OrderLine>(load.list());
    reads_back::<History>(load.list());
}
