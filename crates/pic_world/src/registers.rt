//! The registers and bits that have names.

ghost use Rattle.std.specs.Prelude.{◌≡◌, ◌<◌, List, ℕ, Some, None, IfSome, IsTrue, MatchOption, [], map};
ghost use Rattle.pic_world.specs.Registers.{register_named, register_in, bit_named, bit_in, name_at, name_in, is_register};

/// The registers by name, with their lowest addresses.
const REGISTERS: [(&str, u8); 37] = [
    ("TMR0", 0x01),
    ("PORTA", 0x05),
    ("PORTB", 0x06),
    ("PORTC", 0x07),
    ("PORTD", 0x08),
    ("PORTE", 0x09),
    ("INTCON", 0x0b),
    ("PIR1", 0x0c),
    ("PIR2", 0x0d),
    ("TMR1L", 0x0e),
    ("TMR1H", 0x0f),
    ("T1CON", 0x10),
    ("TMR2", 0x11),
    ("T2CON", 0x12),
    ("SSPBUF", 0x13),
    ("SSPCON", 0x14),
    ("CCPR1L", 0x15),
    ("CCPR1H", 0x16),
    ("CCP1CON", 0x17),
    ("RCSTA", 0x18),
    ("TXREG", 0x19),
    ("RCREG", 0x1a),
    ("ADRESH", 0x1e),
    ("ADCON0", 0x1f),
    ("OPTION_REG", 0x81),
    ("TRISA", 0x85),
    ("TRISB", 0x86),
    ("TRISC", 0x87),
    ("TRISD", 0x88),
    ("TRISE", 0x89),
    ("PIE1", 0x8c),
    ("PIE2", 0x8d),
    ("PR2", 0x92),
    ("TXSTA", 0x98),
    ("SPBRG", 0x99),
    ("ADRESL", 0x9e),
    ("ADCON1", 0x9f),
];

/// The bits by name, with their registers' lowest addresses and their places.
const BITS: [(&str, u8, u8); 95] = [
    ("RA0", 0x05, 0),
    ("RA1", 0x05, 1),
    ("RA2", 0x05, 2),
    ("RA3", 0x05, 3),
    ("RA4", 0x05, 4),
    ("RA5", 0x05, 5),
    ("RB0", 0x06, 0),
    ("RB1", 0x06, 1),
    ("RB2", 0x06, 2),
    ("RB3", 0x06, 3),
    ("RB4", 0x06, 4),
    ("RB5", 0x06, 5),
    ("RB6", 0x06, 6),
    ("RB7", 0x06, 7),
    ("RC0", 0x07, 0),
    ("RC1", 0x07, 1),
    ("RC2", 0x07, 2),
    ("RC3", 0x07, 3),
    ("RC4", 0x07, 4),
    ("RC5", 0x07, 5),
    ("RC6", 0x07, 6),
    ("RC7", 0x07, 7),
    ("RD0", 0x08, 0),
    ("RD1", 0x08, 1),
    ("RD2", 0x08, 2),
    ("RD3", 0x08, 3),
    ("RD4", 0x08, 4),
    ("RD5", 0x08, 5),
    ("RD6", 0x08, 6),
    ("RD7", 0x08, 7),
    ("RE0", 0x09, 0),
    ("RE1", 0x09, 1),
    ("RE2", 0x09, 2),
    ("TRISA0", 0x85, 0),
    ("TRISA1", 0x85, 1),
    ("TRISA2", 0x85, 2),
    ("TRISA3", 0x85, 3),
    ("TRISA4", 0x85, 4),
    ("TRISA5", 0x85, 5),
    ("TRISB0", 0x86, 0),
    ("TRISB1", 0x86, 1),
    ("TRISB2", 0x86, 2),
    ("TRISB3", 0x86, 3),
    ("TRISB4", 0x86, 4),
    ("TRISB5", 0x86, 5),
    ("TRISB6", 0x86, 6),
    ("TRISB7", 0x86, 7),
    ("TRISC0", 0x87, 0),
    ("TRISC1", 0x87, 1),
    ("TRISC2", 0x87, 2),
    ("TRISC3", 0x87, 3),
    ("TRISC4", 0x87, 4),
    ("TRISC5", 0x87, 5),
    ("TRISC6", 0x87, 6),
    ("TRISC7", 0x87, 7),
    ("TRISD0", 0x88, 0),
    ("TRISD1", 0x88, 1),
    ("TRISD2", 0x88, 2),
    ("TRISD3", 0x88, 3),
    ("TRISD4", 0x88, 4),
    ("TRISD5", 0x88, 5),
    ("TRISD6", 0x88, 6),
    ("TRISD7", 0x88, 7),
    ("TRISE0", 0x89, 0),
    ("TRISE1", 0x89, 1),
    ("TRISE2", 0x89, 2),
    ("RBIF", 0x0b, 0),
    ("INTF", 0x0b, 1),
    ("TMR0IF", 0x0b, 2),
    ("T0IF", 0x0b, 2),
    ("RBIE", 0x0b, 3),
    ("INTE", 0x0b, 4),
    ("TMR0IE", 0x0b, 5),
    ("T0IE", 0x0b, 5),
    ("PEIE", 0x0b, 6),
    ("GIE", 0x0b, 7),
    ("TMR1IF", 0x0c, 0),
    ("TMR2IF", 0x0c, 1),
    ("CCP1IF", 0x0c, 2),
    ("SSPIF", 0x0c, 3),
    ("TXIF", 0x0c, 4),
    ("RCIF", 0x0c, 5),
    ("ADIF", 0x0c, 6),
    ("PSPIF", 0x0c, 7),
    ("TMR1IE", 0x8c, 0),
    ("TMR2IE", 0x8c, 1),
    ("CCP1IE", 0x8c, 2),
    ("SSPIE", 0x8c, 3),
    ("TXIE", 0x8c, 4),
    ("RCIE", 0x8c, 5),
    ("ADIE", 0x8c, 6),
    ("PSPIE", 0x8c, 7),
    ("TMR1ON", 0x10, 0),
    ("TMR2ON", 0x12, 2),
    ("ADON", 0x1f, 0),
];

/// The lowest address of the register of a name (DS39582, register file map), or `None` where no
/// register has it.
pub fn register(name: &[u8]) -> Option<u8>
    ensures named { result ≡ register_named name.now }
    ensures back { IfSome result (λ address. name_at address ≡ Some name.now) }
{
    find_register(&REGISTERS, name)
}

fn find_register(mut table: &[(&str, u8)], name: &[u8]) -> Option<u8>
    ensures { result ≡ register_in (map (λ r. (r.0.now, r.1, [])) table.entry.now) name.now }
{
    while let [entry, rest @ ..] = table {
        if entry.0.as_bytes() == name {
            return Some(entry.1);
        }
        table = rest;
    }
    None
}

/// The register's lowest address and the place, below 8, of the bit of a name, or `None` where no
/// bit has it.
pub fn bit(name: &[u8]) -> Option<(u8, u8)>
    ensures named { result ≡ bit_named name.now }
    ensures place { IfSome result (λ bit. bit.1 < 8) }
    ensures register { IfSome result (λ bit. IsTrue (is_register bit.0)) }
{
    find_bit(&BITS, name)
}

fn find_bit(mut table: &[(&str, u8, u8)], name: &[u8]) -> Option<(u8, u8)>
    ensures { result ≡ bit_in (map (λ b. (b.0.now, b.1, b.2)) table.entry.now) name.now }
{
    while let [entry, rest @ ..] = table {
        if entry.0.as_bytes() == name {
            return Some((entry.1, entry.2));
        }
        table = rest;
    }
    None
}

/// The name of the register whose lowest address this is, or `None` where it is no register's.
pub fn register_name(address: u8) -> Option<&'static str>
    ensures named { MatchOption result (name_at address ≡ None) (λ name. name_at address ≡ Some name.now) }
    ensures back { IfSome result (λ name. register_named name.now ≡ Some address) }
{
    find_name(&REGISTERS, address)
}

fn find_name<'a>(mut table: &[(&'a str, u8)], address: u8) -> Option<&'a str>
    ensures { let found = name_in (map (λ r. (r.0.now, r.1, [])) table.entry.now) address in MatchOption result (found ≡ None) (λ name. found ≡ Some name.now) }
{
    while let [entry, rest @ ..] = table {
        if entry.1 == address {
            return Some(entry.0);
        }
        table = rest;
    }
    None
}
