// The usage: one line for each command.

pub fn print() {
    io::write_all(
        1,
        b"dokkumel encrypt ORDER KEYSHARES INPUTSHARES TAPE           AES encryption of one block in shares
dokkumel decrypt ORDER KEYSHARES INPUTSHARES TAPE           AES decryption of one block in shares
dokkumel prepare ORDER KEYSHARES TAPE                       all AES round keys in shares, for encrypt-prepared
dokkumel encrypt-prepared ORDER PREPARED INPUTSHARES TAPE   AES encryption of one block in shares from prepared round keys
dokkumel split ORDER INPUT TAPE                             16, 24 or 32 bytes into shares
dokkumel join ORDER SHARES                                  the XOR of the shares
dokkumel refresh ORDER SHARES TAPE                          new shares of one byte
dokkumel product ORDER LEFT RIGHT TAPE                      product of two bytes in shares
dokkumel sbox ORDER SHARES TAPE                             S-box of one byte in shares
dokkumel sheet ORDER LEFT RIGHT TAPE                        every byte of a product: number, name, byte
dokkumel read ORDER LEFT RIGHT TAPE PLACE...                the bytes at listed places of a product
dokkumel places ORDER                                       the places of a product: number, name
dokkumel places box ORDER                                   the places of an S-box: number, name
dokkumel places inverse-box ORDER                           the places of an inverse S-box: number, name
dokkumel places encryption ORDER KEYBYTES                   the places of an encryption, key expansion included: the numbers of each step
dokkumel places decryption ORDER KEYBYTES                   the places of a decryption, key expansion included: the numbers of each step
dokkumel cube-sheet ORDER SHARES TAPE                       every byte of the cube x*x^2: number, name, byte
dokkumel read-cube ORDER SHARES TAPE PLACE...               the bytes at listed places of the cube
dokkumel cube-places ORDER                                  the places of the cube: number, name
dokkumel tape ORDER KEYBYTES                                which tape bytes and words go into which step of an encryption or a decryption
dokkumel preview ROUTE ORDER LENGTH...                      what that call would answer on buffers of these lengths
dokkumel help                                               this text
ORDER, KEYBYTES, PLACE and LENGTH are decimal. The others but TAPE are bytes in hexadecimal, share after share; '' is no byte.
TAPE is at most 16384 words of 32 bits: the value of each in eight hexadecimal digits, one behind another; '' is no word. The lowest byte of a word
is drawn first: 00000201 is the bytes 01 02 00 00. TAPE may be -, for raw bytes from standard input, four a word, the lowest first.
A call prints its output and the tape words taken, or its refusal.
ROUTE is encrypt, decrypt, prepare or encrypt-prepared. Its LENGTHs are KEYLEN or PREPAREDLEN, INPUTLEN (not for prepare), TAPELEN and OUTPUTLEN:
TAPELEN in words, the others in bytes.
Arguments can be seen by every user of the machine: no key that is in use belongs here.
",
    );
}
