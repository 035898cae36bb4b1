//! Nine files of a small database, for tests: two warehouses with a customer in each district, orders that are delivered
//! and that aren't, a line of another warehouse, a payment in another warehouse, and texts with commas, with quotes and
//! of no character.

/// The folder's files by their names.
pub const FILES: [(&str, &str); 9] = [
    (
        "warehouse.csv",
        "\
W_ID,W_NAME,W_TAX,W_YTD\n\
1,\"W,\"\"1\"\"\",0,10500\n\
2,,10000,10000\n\
",
    ),
    (
        "district.csv",
        "\
D_ID,D_W_ID,D_NAME,D_TAX,D_YTD,D_NEXT_O_ID\n\
1,1,\"a \"\"b\"\", c\",100,1000,3\n\
2,1,,200,1500,1\n\
3,1,D3,300,1000,1\n\
4,1,D4,400,1000,1\n\
5,1,D5,500,1000,1\n\
6,1,D6,600,1000,1\n\
7,1,D7,700,1000,1\n\
8,1,D8,800,1000,1\n\
9,1,D9,900,1000,1\n\
10,1,D10,1000,1000,1\n\
1,2,D1,100,1000,1\n\
2,2,D2,200,1000,1\n\
3,2,\",\",300,1000,2\n\
4,2,D4,400,1000,1\n\
5,2,D5,500,1000,1\n\
6,2,D6,600,1000,1\n\
7,2,D7,700,1000,1\n\
8,2,D8,800,1000,1\n\
9,2,D9,900,1000,1\n\
10,2,D10,1000,1000,1\n\
",
    ),
    (
        "customer.csv",
        "\
C_ID,C_D_ID,C_W_ID,C_FIRST,C_MIDDLE,C_LAST,C_CREDIT,C_DISCOUNT,C_BALANCE,C_YTD_PAYMENT,C_PAYMENT_CNT,C_DELIVERY_CNT,C_DATA\n\
1,1,1,\"\"\"\",,\"O'Neil, \"\"Jo\"\"\",GC,5000,12684,1000,1,1,\n\
1,2,1,F12,OE,BARBARBAR,GC,5000,-1000,1000,1,0,\n\
1,3,1,F13,OE,BARBARBAR,GC,5000,-1000,1000,1,0,\n\
1,4,1,F14,OE,BARBARBAR,GC,5000,-1000,1000,1,0,\n\
1,5,1,F15,OE,BARBARBAR,GC,5000,-1000,1000,1,0,\n\
1,6,1,F16,OE,BARBARBAR,GC,5000,-1000,1000,1,0,\n\
1,7,1,F17,OE,BARBARBAR,GC,5000,-1000,1000,1,0,\n\
1,8,1,F18,OE,BARBARBAR,GC,5000,-1000,1000,1,0,\n\
1,9,1,F19,OE,BARBARBAR,GC,5000,-1000,1000,1,0,\n\
1,10,1,F110,OE,BARBARBAR,BC,5000,-1000,1000,1,0,\"10 1 1 1 1 100;, \"\"old\"\"\"\n\
1,1,2,F21,OE,BARBARBAR,GC,5000,-1000,1000,1,0,\n\
1,2,2,F22,OE,BARBARBAR,GC,5000,-1000,1000,1,0,\n\
1,3,2,,OE,\"a,b\",GC,5000,-1500,1500,2,0,a\n\
1,4,2,F24,OE,BARBARBAR,GC,5000,-1000,1000,1,0,\n\
1,5,2,F25,OE,BARBARBAR,GC,5000,-1000,1000,1,0,\n\
1,6,2,F26,OE,BARBARBAR,GC,5000,-1000,1000,1,0,\n\
1,7,2,F27,OE,BARBARBAR,GC,5000,-1000,1000,1,0,\n\
1,8,2,F28,OE,BARBARBAR,GC,5000,-1000,1000,1,0,\n\
1,9,2,F29,OE,BARBARBAR,GC,5000,-1000,1000,1,0,\n\
1,10,2,F210,OE,BARBARBAR,BC,5000,-1000,1000,1,0,\n\
",
    ),
    (
        "item.csv",
        "\
I_ID,I_IM_ID,I_NAME,I_PRICE\n\
1,1000,\"nut, bolt\",100\n\
2,2000,\"3\"\" nail\",200\n\
3,3000,,300\n\
4,4000,ITEM4,400\n\
5,5000,\"\"\"\"\"\",500\n\
6,6000,~ !#,600\n\
",
    ),
    (
        "stock.csv",
        "\
S_I_ID,S_W_ID,S_QUANTITY,S_YTD,S_ORDER_CNT,S_REMOTE_CNT\n\
1,1,11,0,0,0\n\
2,1,21,0,0,0\n\
3,1,31,0,0,0\n\
4,1,41,0,0,0\n\
5,1,51,0,0,0\n\
6,1,61,0,0,0\n\
1,2,12,5,1,1\n\
2,2,22,0,0,0\n\
3,2,32,0,0,0\n\
4,2,42,0,0,0\n\
5,2,52,0,0,0\n\
6,2,62,0,0,0\n\
",
    ),
    (
        "orders.csv",
        "\
O_ID,O_D_ID,O_W_ID,O_C_ID,O_ENTRY_D,O_CARRIER_ID,O_OL_CNT,O_ALL_LOCAL\n\
1,1,1,1,7,3,5,0\n\
1,3,2,1,8,0,5,1\n\
2,1,1,1,9,0,6,1\n\
",
    ),
    (
        "neworder.csv",
        "\
NO_O_ID,NO_D_ID,NO_W_ID\n\
1,3,2\n\
2,1,1\n\
",
    ),
    (
        "orderline.csv",
        "\
OL_O_ID,OL_D_ID,OL_W_ID,OL_NUMBER,OL_I_ID,OL_SUPPLY_W_ID,OL_DELIVERY_D,OL_QUANTITY,OL_AMOUNT\n\
1,1,1,1,1,2,11,5,500\n\
1,1,1,2,2,1,11,5,274\n\
1,1,1,3,3,1,11,5,1048\n\
1,1,1,4,4,1,11,5,422\n\
1,1,1,5,5,1,11,5,11440\n\
1,3,2,1,6,2,0,1,100\n\
1,3,2,2,5,2,0,2,200\n\
1,3,2,3,4,2,0,3,300\n\
1,3,2,4,3,2,0,4,400\n\
1,3,2,5,2,2,0,5,500\n\
2,1,1,1,1,1,0,10,0\n\
2,1,1,2,2,1,0,10,0\n\
2,1,1,3,3,1,0,10,0\n\
2,1,1,4,4,1,0,10,0\n\
2,1,1,5,5,1,0,10,0\n\
2,1,1,6,6,1,0,10,0\n\
",
    ),
    (
        "history.csv",
        "\
H_C_ID,H_C_D_ID,H_C_W_ID,H_D_ID,H_W_ID,H_DATE,H_AMOUNT,H_DATA\n\
1,1,1,1,1,1,1000,\"W,\"\"1\"\"    a \"\"b\"\", c\"\n\
1,2,1,2,1,1,1000,W1    D2\n\
1,3,1,3,1,1,1000,\n\
1,4,1,4,1,1,1000,W1    D4\n\
1,5,1,5,1,1,1000,W1    D5\n\
1,6,1,6,1,1,1000,W1    D6\n\
1,7,1,7,1,1,1000,W1    D7\n\
1,8,1,8,1,1,1000,W1    D8\n\
1,9,1,9,1,1,1000,W1    D9\n\
1,10,1,10,1,1,1000,W1    D10\n\
1,1,2,1,2,1,1000,W2    D1\n\
1,2,2,2,2,1,1000,W2    D2\n\
1,3,2,3,2,1,1000,W2    D3\n\
1,4,2,4,2,1,1000,W2    D4\n\
1,5,2,5,2,1,1000,W2    D5\n\
1,6,2,6,2,1,1000,W2    D6\n\
1,7,2,7,2,1,1000,W2    D7\n\
1,8,2,8,2,1,1000,W2    D8\n\
1,9,2,9,2,1,1000,W2    D9\n\
1,10,2,10,2,1,1000,W2    D10\n\
1,3,2,2,1,12,500,\"W,\"\"1\"\"    \"\n\
",
    ),
];
