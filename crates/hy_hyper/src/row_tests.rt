//! Rows, texts and refusals: as bytes, in lists and tables, as records of CSV texts; and values of commands.

ghost use Rattle.std.specs.Prelude.{◌≡◌, length};

use hy_commands::{
    Command, Name, Payment, PlacedOrder, Purchase, PurchaseLine, PurchaseLines, StatusLines, Who,
};
use hy_csv::{Reading, read, write};
use hy_layout::Layout;
use hy_rows::{
    ByteBuffer, Customer, District, FixedRow, History, Item, Lists, LongText, NewOrder, Order,
    OrderLine, OwnedRecord, Record, Row, Stock, Tables, Text, Warehouse, is_printable,
};
use hy_schema::Refusal;
use hy_tables::generate;
use std::process::Abort;

/// A text that fits.
fn text<const WIDTH: usize>(rt: &impl Abort, bytes: &[u8]) -> Text<WIDTH> {
    Text::new(bytes).expect(rt, "the text fits")
}

#[test]
fn refusals_print_their_numbers_and_names(rt: HostRuntime) {
    let cases = [
        (Refusal::NoMemory, "E1 NoMemory"),
        (Refusal::NotMine, "E11 NotMine"),
        (Refusal::BadQuery(5), "E13 BadQuery 5"),
        (Refusal::LogFailed, "E14 LogFailed"),
        (Refusal::LogMalformed(43), "E15 LogMalformed 43"),
        (Refusal::Closed, "E16 Closed"),
        (Refusal::QueueFull, "E17 QueueFull"),
    ];
    for (refusal, text) in cases {
        let printed = format!(in rt.alloc(); "{refusal}").expect(&rt, "a text");
        assert_eq!(rt; printed.as_str(), text);
    }
}

#[test]
fn tables_of_one_warehouse(rt: HostRuntime) {
    let load = generate(rt.alloc(), 1, 3, 1).expect(&rt, "a load");
    let tables = load.tables();
    let own = tables.of_warehouse(rt.alloc(), 1).expect(&rt, "its rows");
    assert!(rt; own.list::<Warehouse>().len() == 1);
    assert!(rt; own.list::<District>() == tables.list::<District>());
    assert!(rt; own.list::<Customer>().len() == 30);
    let other = tables.of_warehouse(rt.alloc(), 2).expect(&rt, "no rows");
    assert!(rt; other.list::<Warehouse>().is_empty());
    assert!(rt; other.list::<Customer>().is_empty());
}

/// Whether a row is written as these bytes, and read from them.
fn is_bytes<R: FixedRow + PartialEq>(row: R, bytes: &[u8]) -> bool
    requires { length bytes.now ≡ R.BYTES }
{
    let slot = row.slot();
    slot.as_slice().starts_with(&[1]) && slot.as_slice().ends_with(bytes) && R::read(bytes) == row
}

#[test]
fn rows_are_bytes(rt: HostRuntime) {
    let row = Warehouse {
        id: 1,
        name: text(&rt, b"W1"),
        tax: 500,
        ytd: 30_000,
    };
    let bytes = b"\x01W1\0\0\0\0\0\0\0\0\xf4\x01\x30\x75\0\0\0\0\0\0";
    assert!(rt; is_bytes(row, bytes));
    let row = District {
        id: 3,
        warehouse: 1,
        name: text(&rt, b"D3"),
        tax: 300,
        ytd: 3_000,
        next_order: 1,
    };
    let bytes = b"\x03\x01D3\0\0\0\0\0\0\0\0\x2c\x01\xb8\x0b\0\0\0\0\0\0\x01\0\0\0";
    assert!(rt; is_bytes(row, bytes));
}

#[test]
fn payments_are_bytes(rt: HostRuntime) {
    let row = History {
        customer: 2,
        customer_district: 3,
        customer_warehouse: 1,
        district: 4,
        warehouse: 5,
        date: 1_700_000_001,
        amount: -1_000,
        information: text(&rt, b"W1    D4"),
    };
    let bytes = b"\x02\0\x03\x01\x04\x05\x01\xf1\x53\x65\0\0\0\0\x18\xfc\xff\xff\xff\xff\xff\xff\
        W1    D4\0\0\0\0\0\0\0\0\0\0\0\0\0\0\0\0";
    assert!(rt; is_bytes(row, bytes));
}

#[test]
fn customers_are_read_from_their_bytes(rt: HostRuntime) {
    let load = generate(rt.alloc(), 1, 3, 1).expect(&rt, "a load");
    for customer in load.list::<Customer>() {
        let slot = customer.slot();
        let bytes = slot.as_slice();
        assert!(rt; bytes.len() == 1 + Customer::BYTES);
        let read = Customer::decode(rt.alloc(), &bytes[1..]).expect(&rt, "a row");
        assert!(rt; read == *customer);
    }
}

#[test]
fn long_texts(rt: HostRuntime) {
    let alloc = rt.alloc();
    let text: LongText<500> = LongText::of_field(alloc, &[b'a'; 500]).expect(&rt, "a text");
    assert!(rt; text.as_bytes() == [b'a'; 500].as_slice());
    assert!(rt; text.copy(alloc).expect(&rt, "a copy") == text);
    let empty: LongText<500> = LongText::of_field(alloc, &[0; 500]).expect(&rt, "no text");
    assert!(rt; empty.as_bytes().is_empty());
    assert!(rt; empty != text);
}

/// A line of an order.
fn line() -> OrderLine {
    OrderLine {
        order: 3_001,
        district: 5,
        warehouse: 6,
        number: 8,
        item: 70_000,
        supply_warehouse: 10,
        delivery_date: 1_700_000_001,
        quantity: 9,
        amount: 123_456,
    }
}

#[test]
fn lines_are_bytes(rt: HostRuntime) {
    let bytes =
        b"\xb9\x0b\0\0\x05\x06\x08\x70\x11\x01\0\x0a\x01\xf1\x53\x65\0\0\0\0\x09\x40\xe2\x01\0\0\0\0\0";
    assert!(rt; is_bytes(line(), bytes));
    assert!(rt; line().is_in_range());
    assert!(rt; line().belongs_to(6));
}

#[test]
fn lists_of_all_tables(rt: HostRuntime) {
    let alloc = rt.alloc();
    let item = Item {
        id: 1,
        image: 1,
        name: text(&rt, b"one"),
        price: 100,
    };
    let lists = Lists {
        items: Vec::from_slice(alloc, &[item]).expect(&rt, "a row"),
        tables: Tables {
            order_lines: Vec::from_slice(alloc, &[line()]).expect(&rt, "a row"),
            ..Tables::new(alloc)
        },
    };
    assert!(rt; lists.list::<Item>().len() == 1);
    assert!(rt; lists.list::<Item>().iter().all(|item| item.is_in_range()));
    assert!(rt; lists.list::<OrderLine>().first() == Some(&line()));
    assert!(rt; lists.list::<Stock>().is_empty());
}

#[test]
fn texts(rt: HostRuntime) {
    let name = text::<4>(&rt, b"AB");
    assert!(rt; name.as_bytes() == b"AB".as_slice());
    assert!(rt; name.field() == b"AB\0\0".as_slice());
    assert!(rt; name == Text::of_field(b"AB\0C"));
    assert!(rt; Text::<4>::new(b"ABCDE").is_none());
    assert!(rt; Text::<4>::new(b"A\0B").is_none());
    assert!(rt; is_printable(b"A~"));
    assert!(rt; !is_printable(b"A\n"));
}

/// These lines behind the names of a table's columns.
fn under_names<R: Record>(rt: &(impl Abort + AllocGlobal), lines: &[u8]) -> Vec<u8> {
    let mut text = Vec::new(rt.alloc());
    for (place, column) in R::TABLE.columns().iter().enumerate() {
        if 0 < place {
            text.push(b',').expect(rt, "a comma");
        }
        text.extend_from_slice(column.name).expect(rt, "a name");
    }
    text.push(b'\n').expect(rt, "an end");
    text.extend_from_slice(lines).expect(rt, "the lines");
    text
}

/// Whether rows are written as these lines behind the names of their columns, and read from them.
fn is_text<R: OwnedRecord + PartialEq>(
    rt: &(impl Abort + AllocGlobal),
    rows: &[R],
    lines: &[u8],
) -> bool {
    let expected = under_names::<R>(rt, lines);
    let text = write(rt.alloc(), rows).expect(rt, "a text");
    let found: Reading<R> = read(rt.alloc(), &expected).expect(rt, "rows");
    text == expected && found.rows.as_slice() == rows && found.unread == None
}

/// A payment of so many cents.
fn payment(rt: &impl Abort, amount: i64) -> History {
    History {
        customer: 3_000,
        customer_district: 2,
        customer_warehouse: 1,
        district: 10,
        warehouse: 16,
        date: u64::MAX,
        amount,
        information: text(rt, b"W16   D10"),
    }
}

#[test]
fn writes_payments_and_stock(rt: HostRuntime) {
    let expected = b"3000,2,1,10,16,18446744073709551615,-9223372036854775808,W16   D10\n";
    assert!(rt; is_text(&rt, &[payment(&rt, i64::MIN)], expected));
    let expected = b"3000,2,1,10,16,18446744073709551615,9223372036854775807,W16   D10\n";
    assert!(rt; is_text(&rt, &[payment(&rt, i64::MAX)], expected));
    let stock = Stock {
        item: 100_000,
        warehouse: 16,
        quantity: u16::MAX,
        ytd: u64::MAX,
        order_count: 0,
        remote_count: 7,
    };
    let expected = b"100000,16,65535,18446744073709551615,0,7\n";
    assert!(rt; is_text(&rt, &[stock], expected));
}

#[test]
fn writes_orders(rt: HostRuntime) {
    let new_order = NewOrder {
        order: 2_101,
        district: 9,
        warehouse: 5,
    };
    let expected = b"2101,9,5\n";
    assert!(rt; is_text(&rt, &[new_order], expected));
    let order = Order {
        id: u32::MAX,
        district: 1,
        warehouse: 2,
        customer: 3,
        entry_date: 4,
        carrier: 0,
        line_count: 15,
        all_local: 1,
    };
    let expected = b"4294967295,1,2,3,4,0,15,1\n";
    assert!(rt; is_text(&rt, &[order], expected));
}

#[test]
fn writes_order_lines(rt: HostRuntime) {
    let line = OrderLine {
        order: 1,
        district: 2,
        warehouse: 3,
        number: 4,
        item: 100_000,
        supply_warehouse: 6,
        delivery_date: 0,
        quantity: 10,
        amount: 1_234,
    };
    let expected = b"1,2,3,4,100000,6,0,10,1234\n1,2,3,4,100000,6,0,10,1234\n";
    assert!(rt; is_text(&rt, &[line, line], expected));
}

/// An item with a name.
fn item(rt: &impl Abort, name: &[u8]) -> Item {
    Item {
        id: 1,
        image: 2,
        name: text(rt, name),
        price: 100,
    }
}

#[test]
fn writes_texts_in_quotes(rt: HostRuntime) {
    let items = [item(&rt, b""), item(&rt, b" a, b"), item(&rt, b"a \"b\" ~")];
    let expected = b"1,2,,100\n1,2,\" a, b\",100\n1,2,\"a \"\"b\"\" ~\",100\n";
    assert!(rt; is_text(&rt, &items, expected));
}

/// Whether lines say one row, and nothing that is none.
fn is_one_row<R: OwnedRecord>(rt: &(impl Abort + AllocGlobal), lines: &[u8]) -> bool {
    let text = under_names::<R>(rt, lines);
    let found: Reading<R> = read(rt.alloc(), &text).expect(rt, "rows");
    found.rows.len() == 1 && found.unread == None
}

#[test]
fn reads_the_ends_of_the_column_types(rt: HostRuntime) {
    let lines = b"4294967295,255,65535,0,0,18446744073709551615\n";
    assert!(rt; is_one_row::<Stock>(&rt, lines));
    let lines = b"1,a,2,-9223372036854775808\n";
    assert!(rt; is_one_row::<Warehouse>(&rt, lines));
    let lines = b"1,a,2,9223372036854775807\n";
    assert!(rt; is_one_row::<Warehouse>(&rt, lines));
}

/// A line of an order that a warehouse supplies.
fn line_of(item: u64, supply_warehouse: u64) -> PurchaseLine {
    PurchaseLine {
        item,
        supply_warehouse,
        quantity: 5,
    }
}

/// Whether an order in warehouse 1 of five items, the last of which another warehouse may supply, names these.
fn names_warehouses(
    rt: &(impl Abort + AllocGlobal),
    supply_warehouse: u64,
    expected: &[u64],
) -> bool {
    let lines = [
        line_of(1, 1),
        line_of(2, 1),
        line_of(3, 1),
        line_of(4, 1),
        line_of(5, supply_warehouse),
    ];
    let lines = PurchaseLines::new(rt.alloc(), &lines).expect(rt, "lines");
    let order = Command::NewOrder(Purchase {
        warehouse: 1,
        district: 2,
        customer: 3,
        at: 1,
        lines,
    });
    assert!(rt; order.check().is_ok());
    names_these(&order, expected)
}

/// Whether a command names these warehouses in this order, and no others.
fn names_these(command: &Command, expected: &[u64]) -> bool {
    let mut named = command.warehouses();
    for number in expected {
        if named.next() != Some(*number) {
            return false;
        }
    }
    named.next().is_none()
}

/// A command that no check has seen, with 20 lines from as many warehouses, and one from its home.
#[test]
fn commands_name_many_warehouses(rt: HostRuntime) {
    let mut lines = [line_of(1, 7); 21];
    let mut expected = [7; 21];
    for place in 0..20usize {
        lines[place] = line_of(1, place as u64 + 100);
        expected[place + 1] = place as u64 + 100;
    }
    let lines = PurchaseLines::new(rt.alloc(), &lines).expect(&rt, "lines");
    let order = Command::NewOrder(Purchase {
        warehouse: 7,
        district: 11,
        customer: 0,
        at: 0,
        lines,
    });
    assert!(rt; order.check().is_err());
    assert!(rt; names_these(&order, &expected));
}

#[test]
fn commands_name_warehouses(rt: HostRuntime) {
    assert!(rt; names_warehouses(&rt, 1, &[1]));
    assert!(rt; names_warehouses(&rt, 7, &[1, 7]));
    let payment = Command::Payment(Payment {
        warehouse: 1,
        district: 1,
        customer_warehouse: 2,
        customer_district: 3,
        who: Who::Number(65_537),
        amount: 100,
        at: 1,
    });
    assert!(rt; names_these(&payment, &[1, 2]));
}

#[test]
fn values_of_commands_are_slices(rt: HostRuntime) {
    let lines = PurchaseLines::new(rt.alloc(), &[line_of(1, 1), line_of(2, 7)]).expect(
        &rt, "lines",
    );
    assert!(rt; lines.len() == 2 && lines.line(1).supply_warehouse == 7);
    assert!(rt; Name::new(Vec::new(rt.alloc())).as_bytes().len() == 0);
    let order = PlacedOrder {
        number: 1,
        entry_date: 2,
        carrier: 0,
        lines: StatusLines::new(Vec::new(rt.alloc())),
    };
    assert!(rt; order.lines.as_slice().len() == 0);
}

#[test]
fn a_layout_has_its_load(rt: HostRuntime) {
    let load = generate(rt.alloc(), 2, 3, 2).expect(&rt, "a load");
    assert!(rt; load.tables().warehouses.len() == 2);
    let layout = Layout::new(rt.alloc(), &load, 2).expect(&rt, "a layout");
    assert!(rt; layout.warehouse() == 2);
    assert!(rt; layout.load().tables().stock.len() == 4);
}
