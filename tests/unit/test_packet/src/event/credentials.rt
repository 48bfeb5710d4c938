//! Requests with credentials that the server does not check: of a client that is trusted and of others, by the
//! file of `trusted`, and in version 2. The numbers and names are those of FreeRADIUS's dictionaries, and the octets
//! were computed with Python's hmac and hashlib.

use super::trusted::Logins;
use super::{CLIENT, OTHER, check, check_spelled};
use std::test::Fail;

#[test]
fn trusted_client_passes_on_no_credential(rt: HostRuntime) -> Result<(), Fail> {
    let rows = "
        ARAP-Password | \
          0100003e0f403f9473978057bd83d5cb98f4227a50129efd2e4bb7bca5e8fc1830885ad846ea01066e656d\
          6f461200000000000000000000000000000000 | UncheckedCredential
        ARAP-Features | \
          0100003c0f403f9473978057bd83d5cb98f4227a5012b83bbe045e1179f8c0393fcafbaf6a8e01066e656d\
          6f47100000000000000000000000000000 | UncheckedCredential
        ARAP-Security | \
          010000320f403f9473978057bd83d5cb98f4227a501286615b3b5aee8f86b262eaf33006ddd101066e656d\
          6f490600000000 | UncheckedCredential
        ARAP-Security-Data | \
          0100002f0f403f9473978057bd83d5cb98f4227a5012b2618f6616747c89493d0311a7fa9de901066e656d\
          6f4a0300 | UncheckedCredential
        ARAP-Challenge-Response | \
          010000360f403f9473978057bd83d5cb98f4227a501224c3aa70586a8fc079c124b31efabae101066e656d\
          6f540a0000000000000000 | UncheckedCredential
        EAP-Message | \
          010000370f403f9473978057bd83d5cb98f4227a5012c41e1d98f09a3f6e1510b6c897fa58f801066e656d\
          6f4f0b02000009016e656d6f | UncheckedCredential
        an empty EAP-Message | \
          0100002e0f403f9473978057bd83d5cb98f4227a50120135173180603207592026e04b6e662c01066e656d\
          6f4f02 | UncheckedCredential
        Digest-Response | \
          0100004e0f403f9473978057bd83d5cb98f4227a501274d73fcddf0298bfebd1e1ea2af4148501066e656d\
          6f67223636323966616534393339336130353339373435303937383530376334656631 | \
          UncheckedCredential
        Digest-Realm | \
          0100002f0f403f9473978057bd83d5cb98f4227a5012e9bc2d75f9cafa002519c5a9f9349d1801066e656d\
          6f680372 | UncheckedCredential
        Digest-Nonce | \
          0100002f0f403f9473978057bd83d5cb98f4227a501218d6ed5d4ec1f575aefb83dbb26029b701066e656d\
          6f69036e | UncheckedCredential
        Digest-Response-Auth | \
          0100002f0f403f9473978057bd83d5cb98f4227a501288d66da59b22dc78d6564352974a7b6b01066e656d\
          6f6a0372 | UncheckedCredential
        Digest-Nextnonce | \
          0100002f0f403f9473978057bd83d5cb98f4227a50120512406c449a7fedc4702f546352a60501066e656d\
          6f6b036e | UncheckedCredential
        Digest-Method | \
          010000340f403f9473978057bd83d5cb98f4227a5012910d492e2e15d842a19661b19172b1db01066e656d\
          6f6c08494e56495445 | UncheckedCredential
        Digest-URI | \
          010000330f403f9473978057bd83d5cb98f4227a5012dd7f6e7301696541d7b233934d2c965201066e656d\
          6f6d077369703a61 | UncheckedCredential
        Digest-Qop | \
          010000320f403f9473978057bd83d5cb98f4227a50129513e1a9ee6898d6dbb0e178a5d90b4601066e656d\
          6f6e0661757468 | UncheckedCredential
        Digest-Algorithm | \
          010000310f403f9473978057bd83d5cb98f4227a50123ffd433ed383f91ed06f7850bffca47201066e656d\
          6f6f054d4435 | UncheckedCredential
        Digest-Entity-Body-Hash | \
          0100002f0f403f9473978057bd83d5cb98f4227a5012cdbc2622189de516e59badbe74487d7e01066e656d\
          6f700368 | UncheckedCredential
        Digest-CNonce | \
          0100002f0f403f9473978057bd83d5cb98f4227a5012f1ab3eff46e7075191357a12c75ae63a01066e656d\
          6f710363 | UncheckedCredential
        Digest-Nonce-Count | \
          010000360f403f9473978057bd83d5cb98f4227a5012afaeb3c43f836a398c7328a185ced97b01066e656d\
          6f720a3030303030303031 | UncheckedCredential
        Digest-Username | \
          010000320f403f9473978057bd83d5cb98f4227a50127c280ed7c604cdac046e26672967862601066e656d\
          6f73066e656d6f | UncheckedCredential
        Digest-Opaque | \
          0100002f0f403f9473978057bd83d5cb98f4227a5012255d2ba534a86f43cd7bf6a7959a60ad01066e656d\
          6f74036f | UncheckedCredential
        Digest-Auth-Param | \
          0100002f0f403f9473978057bd83d5cb98f4227a50129846052a6a2e7b43c96af1a0bd56e74a01066e656d\
          6f750370 | UncheckedCredential
        Digest-AKA-Auts | \
          0100002f0f403f9473978057bd83d5cb98f4227a5012e0e1cfb22373709757c34e1359c1867701066e656d\
          6f760361 | UncheckedCredential
        Digest-Domain | \
          0100002f0f403f9473978057bd83d5cb98f4227a50128cf6e87bf22b77aecbd313b9b734d80301066e656d\
          6f770364 | UncheckedCredential
        Digest-Stale | \
          0100002f0f403f9473978057bd83d5cb98f4227a5012e0a2278b5c6830a8e561df1c20b9f01a01066e656d\
          6f780373 | UncheckedCredential
        Digest-HA1 | \
          0100002f0f403f9473978057bd83d5cb98f4227a5012c04447d35e841e0f54ab0a2417a3335e01066e656d\
          6f790368 | UncheckedCredential
        SIP-AOR | \
          010000330f403f9473978057bd83d5cb98f4227a5012f7e92ac4552e2d05dff44c6e4ad1f1eb01066e656d\
          6f7a077369703a61 | UncheckedCredential
        PKM-SS-Cert | \
          0100002f0f403f9473978057bd83d5cb98f4227a5012ded9681be81936008b8462dea9b9712401066e656d\
          6f890330 | UncheckedCredential
        PKM-CA-Cert | \
          0100002f0f403f9473978057bd83d5cb98f4227a5012ca51192ed35319ea7aa359a2578fc03401066e656d\
          6f8a0330 | UncheckedCredential
        Digest-Response of the draft | \
          0100004e0f403f9473978057bd83d5cb98f4227a50128e8f1dfad42ff3470e4fdc4b3deabff201066e656d\
          6fce223636323966616534393339336130353339373435303937383530376334656631 | \
          UncheckedCredential
        Digest-Attributes of the draft | \
          010000340f403f9473978057bd83d5cb98f4227a50126ee4cc64df16359451d2fc58cffb199b01066e656d\
          6fcf080a066e656d6f | UncheckedCredential
    ";
    check_spelled(&rt, &Logins { source: CLIENT }, rows)
}

// RFC 2548; MS-ARAP-Challenge and MS-Quarantine-SOH by dictionary.microsoft.
#[test]
fn nor_one_of_microsoft(rt: HostRuntime) -> Result<(), Fail> {
    let rows = "
        MS-CHAP-Response | \
          010000660f403f9473978057bd83d5cb98f4227a5012ffeb3064b6761de6e2dd91d29d626e4401066e656d\
          6f1a3a00000137013400000000000000000000000000000000000000000000000000000000000000000000\
          00000000000000000000000000000000 | UncheckedCredential
        MS-CHAP-Error | \
          0100003a0f403f9473978057bd83d5cb98f4227a50121863505b0c447b893e0139596cc261bd01066e656d\
          6f1a0e00000137020800453d363931 | UncheckedCredential
        MS-CHAP-CPW-1 | \
          010000350f403f9473978057bd83d5cb98f4227a501263789a4f3ff05688cb96c4e87c4356c001066e656d\
          6f1a0900000137030300 | UncheckedCredential
        MS-CHAP-CPW-2 | \
          010000350f403f9473978057bd83d5cb98f4227a50124baa0cbb269b83a7dd0ade3e58e1405c01066e656d\
          6f1a0900000137040300 | UncheckedCredential
        MS-CHAP-LM-Enc-PW | \
          010000350f403f9473978057bd83d5cb98f4227a5012a61f5a8779812341e5ba5a97022134b201066e656d\
          6f1a0900000137050300 | UncheckedCredential
        MS-CHAP-NT-Enc-PW | \
          010000350f403f9473978057bd83d5cb98f4227a50124cc7b9af6890958c7aa548557a37734401066e656d\
          6f1a0900000137060300 | UncheckedCredential
        MS-CHAP-Challenge | \
          010000440f403f9473978057bd83d5cb98f4227a5012bf4603a6ef8397125704fe3f2e506aa401066e656d\
          6f1a18000001370b1200000000000000000000000000000000 | UncheckedCredential
        MS-CHAP-MPPE-Keys | \
          010000350f403f9473978057bd83d5cb98f4227a501241ecbc03b100f50ff4ed861b3d3e080401066e656d\
          6f1a09000001370c0300 | UncheckedCredential
        MS-MPPE-Send-Key | \
          010000350f403f9473978057bd83d5cb98f4227a5012e8f4a32b84da842b5311e559f736f67401066e656d\
          6f1a0900000137100300 | UncheckedCredential
        MS-MPPE-Recv-Key | \
          010000350f403f9473978057bd83d5cb98f4227a501210df6b3454f21e6282f0622b06c2225801066e656d\
          6f1a0900000137110300 | UncheckedCredential
        MS-Old-ARAP-Password | \
          010000350f403f9473978057bd83d5cb98f4227a5012d3bc3d03e3e510b303162044804112b901066e656d\
          6f1a0900000137130300 | UncheckedCredential
        MS-New-ARAP-Password | \
          010000350f403f9473978057bd83d5cb98f4227a501260be30ec2407853257ab3e8fec1a7bd701066e656d\
          6f1a0900000137140300 | UncheckedCredential
        MS-ARAP-PW-Change-Reason | \
          010000380f403f9473978057bd83d5cb98f4227a5012bf948775183258c5226285901e985ba601066e656d\
          6f1a0c00000137150600000000 | UncheckedCredential
        MS-CHAP2-Response | \
          010000660f403f9473978057bd83d5cb98f4227a50120f058a75d70bc3308fcc6edb83865f5e01066e656d\
          6f1a3a00000137193400000000000000000000000000000000000000000000000000000000000000000000\
          00000000000000000000000000000000 | UncheckedCredential
        MS-CHAP2-Success | \
          010000370f403f9473978057bd83d5cb98f4227a5012569d6546239bc1fa3d6dc8e704aedc2b01066e656d\
          6f1a0b000001371a0500533d | UncheckedCredential
        MS-CHAP2-CPW | \
          010000350f403f9473978057bd83d5cb98f4227a5012c904db7562bf9d77471a54647f24367401066e656d\
          6f1a09000001371b0300 | UncheckedCredential
        MS-ARAP-Challenge | \
          0100003c0f403f9473978057bd83d5cb98f4227a5012a0fcd69615f452434fd41a960b6ed10b01066e656d\
          6f1a1000000137210a0000000000000000 | UncheckedCredential
        MS-Quarantine-SOH | \
          010000350f403f9473978057bd83d5cb98f4227a501222524452a2b8f93c7d75bda410ba25fb01066e656d\
          6f1a0900000137370300 | UncheckedCredential
        0, which names nothing | \
          010000350f403f9473978057bd83d5cb98f4227a50121c46769eebccf4a03f8180fad80ea7b101066e656d\
          6f1a0900000137000300 | UncheckedCredential
        32, which names nothing | \
          010000350f403f9473978057bd83d5cb98f4227a5012d65dd091eb7eb3cfbe30f5637bfc9fd001066e656d\
          6f1a0900000137200300 | UncheckedCredential
        38, which names nothing | \
          010000350f403f9473978057bd83d5cb98f4227a5012603ba4267857c28aa8e2d2be066d135c01066e656d\
          6f1a0900000137260300 | UncheckedCredential
        39, which names nothing | \
          010000350f403f9473978057bd83d5cb98f4227a5012860703f1bfb4a1ba2c1f44bbda3d821601066e656d\
          6f1a0900000137270300 | UncheckedCredential
        43, which names nothing | \
          010000350f403f9473978057bd83d5cb98f4227a5012283ff60efd880ef30d8f2c3355de2ef501066e656d\
          6f1a09000001372b0300 | UncheckedCredential
        64, which names nothing | \
          010000350f403f9473978057bd83d5cb98f4227a50126a2d79f9f8508fe855e814f2a18ae9b401066e656d\
          6f1a0900000137400300 | UncheckedCredential
        255, which names nothing | \
          010000350f403f9473978057bd83d5cb98f4227a50127539de4d57bf79d29d8e83a656b23cf801066e656d\
          6f1a0900000137ff0300 | UncheckedCredential
        MS-CHAP-Challenge and MS-CHAP2-Response | \
          0100007e0f403f9473978057bd83d5cb98f4227a5012acbb698dd5076fb917696b8e94127f5d01066e656d\
          6f1a18000001370b12000000000000000000000000000000001a3a00000137193400000000000000000000\
          00000000000000000000000000000000000000000000000000000000000000000000000000000000 | \
          UncheckedCredential
    ";
    check_spelled(&rt, &Logins { source: CLIENT }, rows)
}

#[test]
fn what_is_known_to_be_none_may_be_there(rt: HostRuntime) -> Result<(), Fail> {
    let rows = "
        MS-MPPE-Encryption-Policy | \
          010000380f403f9473978057bd83d5cb98f4227a501251ca6b628c34922712b87f8004b2bdef01066e656d\
          6f1a0c00000137070600000000 | asks 0
        MS-CHAP-Domain | \
          010000380f403f9473978057bd83d5cb98f4227a5012646f78f2af422e0abd93b3715d64eea901066e656d\
          6f1a0c000001370a0600000000 | asks 0
        MS-BAP-Usage | \
          010000380f403f9473978057bd83d5cb98f4227a5012b1807200bb56c03839ea36bddf9dbc8201066e656d\
          6f1a0c000001370d0600000000 | asks 0
        MS-Link-Drop-Time-Limit | \
          010000380f403f9473978057bd83d5cb98f4227a5012650ff592a5f847b905298fe7ac19fe9501066e656d\
          6f1a0c000001370f0600000000 | asks 0
        MS-RAS-Version | \
          010000380f403f9473978057bd83d5cb98f4227a50124b9fc95532ddaaa329ba84334ecf03b501066e656d\
          6f1a0c00000137120600000000 | asks 0
        MS-Filter | \
          010000380f403f9473978057bd83d5cb98f4227a50127403612dabcd9fd69875b91d120e753d01066e656d\
          6f1a0c00000137160600000000 | asks 0
        MS-Acct-EAP-Type | \
          010000380f403f9473978057bd83d5cb98f4227a5012966588704dda19fd86e6d31f1ed6a50201066e656d\
          6f1a0c00000137180600000000 | asks 0
        MS-Primary-DNS-Server | \
          010000380f403f9473978057bd83d5cb98f4227a5012e35468e108be307ce275d598d5f8429401066e656d\
          6f1a0c000001371c0600000000 | asks 0
        MS-Secondary-NBNS-Server | \
          010000380f403f9473978057bd83d5cb98f4227a50124eb28ac520918b6ba34db147ee52302f01066e656d\
          6f1a0c000001371f0600000000 | asks 0
        MS-RAS-Client-Name | \
          010000380f403f9473978057bd83d5cb98f4227a50122a4e9f4e192e5f1c9a54044cd293a3a001066e656d\
          6f1a0c00000137220600000000 | asks 0
        MS-Quarantine-Session-Timeout | \
          010000380f403f9473978057bd83d5cb98f4227a5012489855b0acebcf343e6fb7805d331c9801066e656d\
          6f1a0c00000137250600000000 | asks 0
        MS-User-Security-Identity | \
          010000380f403f9473978057bd83d5cb98f4227a5012c2b54796e2da29fd2fe985142792781601066e656d\
          6f1a0c00000137280600000000 | asks 0
        MS-Service-Class | \
          010000380f403f9473978057bd83d5cb98f4227a5012bd68e32d1eede9f41e552f597e74173001066e656d\
          6f1a0c000001372a0600000000 | asks 0
        MS-Quarantine-User-Class | \
          010000380f403f9473978057bd83d5cb98f4227a501284db4f6dbc84dc680ae0d373f37834fc01066e656d\
          6f1a0c000001372c0600000000 | asks 0
        MS-RNAP-Not-Quarantine-Capable | \
          010000380f403f9473978057bd83d5cb98f4227a5012534d4959f81b2a9888965e0df58a1ce601066e656d\
          6f1a0c00000137360600000000 | asks 0
        MS-RAS-Correlation | \
          010000380f403f9473978057bd83d5cb98f4227a50127d28caabda2c85d9a2d7193de61f015101066e656d\
          6f1a0c00000137380600000000 | asks 0
        MS-TSG-Device-Redirection | \
          010000380f403f9473978057bd83d5cb98f4227a50121218b88e15801c92f826b32213f78cfe01066e656d\
          6f1a0c000001373f0600000000 | asks 0
        ARAP-Zone-Access | \
          010000320f403f9473978057bd83d5cb98f4227a501218b021a263c2f18efec04c6e297cc63f01066e656d\
          6f480600000000 | asks 0
        Password-Retry | \
          010000320f403f9473978057bd83d5cb98f4227a50125d8d664df6c9d60f72bca057e526c75201066e656d\
          6f4b0600000000 | asks 0
        Connect-Info | \
          010000370f403f9473978057bd83d5cb98f4227a501210ecece0972fdb8d6eebd58c2655c31501066e656d\
          6f4d0b3534204d6269742f73 | asks 0
        EAP-Key-Name, the Type before those of Digest | \
          0100002f0f403f9473978057bd83d5cb98f4227a50126805931ef39c8d78b773c4122ede599201066e656d\
          6f660300 | asks 0
        Delegated-IPv6-Prefix, the Type after them | \
          0100002f0f403f9473978057bd83d5cb98f4227a5012baadcfe2b4f18b36f2c09d65eb39b02f01066e656d\
          6f7b0300 | asks 0
        PKM-Config-Settings, the Type after the certificates | \
          0100002f0f403f9473978057bd83d5cb98f4227a5012c48879ac0ca4cf4eeeaeef2b8e5fef2a01066e656d\
          6f8b0300 | asks 0
        Cisco-AVPair, whose vendor is another | \
          010000380f403f9473978057bd83d5cb98f4227a50121ba2400e24ceae302de6a49e2f0769bc01066e656d\
          6f1a0c000000090106613d6263 | asks 0
        another vendor whose attribute is no list | \
          010000330f403f9473978057bd83d5cb98f4227a5012f11e0de23927c2d000c41393ccf312cc01066e656d\
          6f1a070000000919 | asks 0
        another vendor whose number ends as that of Microsoft | \
          010000350f403f9473978057bd83d5cb98f4227a501219e9472588374acd8fa1d2a13a6fad8401066e656d\
          6f1a0901000137190300 | asks 0
    ";
    check_spelled(&rt, &Logins { source: CLIENT }, rows)
}

// RFC 2865 section 5.26.
#[test]
fn vendor_specific_is_read_to_its_end(rt: HostRuntime) -> Result<(), Fail> {
    let rows = "
        two that are none in one Vendor-Specific | \
          0100003b0f403f9473978057bd83d5cb98f4227a5012d0c2c91354e5ef115acbba41af1db58401066e656d\
          6f1a0f00000137090600000009120331 | asks 0
        MS-CHAP2-Response behind one that is none | \
          010000390f403f9473978057bd83d5cb98f4227a50120cbc6f463e1b12b3a1a1d41dac101d1501066e656d\
          6f1a0d0000013712033119040000 | UncheckedCredential
        MS-CHAP2-Response in the second Vendor-Specific | \
          0100003f0f403f9473978057bd83d5cb98f4227a5012ee1c0d207fbe9e5adcac9fa7615fb60601066e656d\
          6f1a09000001371203311a0a0000013719040000 | UncheckedCredential
        no octet | \
          0100002e0f403f9473978057bd83d5cb98f4227a5012c573f3e085f0a4300437204671c3fb0601066e656d\
          6f1a02 | UncheckedCredential
        three octets | \
          010000310f403f9473978057bd83d5cb98f4227a5012a4793f3f584b158ae00d7d7430ab8cb401066e656d\
          6f1a05000009 | UncheckedCredential
        a vendor that says nothing | \
          010000320f403f9473978057bd83d5cb98f4227a50125ef7c545d0b00ea964ab40bab60c66d501066e656d\
          6f1a0600000009 | UncheckedCredential
        Microsoft that says nothing | \
          010000320f403f9473978057bd83d5cb98f4227a50121d3798f5fc8168bdf68aaf7e60ff148a01066e656d\
          6f1a0600000137 | UncheckedCredential
        no Vendor-Length | \
          010000330f403f9473978057bd83d5cb98f4227a50128cb65e78c7d6eca795a7b32837bc63b701066e656d\
          6f1a070000013712 | UncheckedCredential
        a Vendor-Length of 1 | \
          010000340f403f9473978057bd83d5cb98f4227a50128143b569f38e99cfbbced86183114d8201066e656d\
          6f1a08000001371201 | UncheckedCredential
        a Vendor-Length past the end | \
          010000350f403f9473978057bd83d5cb98f4227a50125fb56bb1a0fa517311b40047a9394e1601066e656d\
          6f1a0900000137120431 | UncheckedCredential
        an octet left behind one that is none | \
          010000360f403f9473978057bd83d5cb98f4227a501226f8e2e8d2b2848b56ffd24a1024cc0601066e656d\
          6f1a0a0000013712033112 | UncheckedCredential
        an attribute without a value | \
          010000340f403f9473978057bd83d5cb98f4227a5012d612d147f6257e036db3164b109756c801066e656d\
          6f1a08000001371202 | asks 0
    ";
    check_spelled(&rt, &Logins { source: CLIENT }, rows)
}

#[test]
fn cause_comes_after_the_name_and_before_the_password(rt: HostRuntime) -> Result<(), Fail> {
    let rows = "
        its password besides | \
          010000480f403f9473978057bd83d5cb98f4227a50122faf9a4de674b0bfe455d63ec667f39d01066e656d\
          6f02121701fe9011df58343bef320ad7ac13a51a0a0000013719040000 | UncheckedCredential
        a wrong password besides | \
          010000480f403f9473978057bd83d5cb98f4227a50126bea777f4f565a05518b6b89303e293901066e656d\
          6f02121701fe9011df58343bee320ad7ac13a51a0a0000013719040000 | UncheckedCredential
        two User-Names | \
          0100003c0f403f9473978057bd83d5cb98f4227a5012e839b4fc8ee6f61b5b771de1c613700801066e656d\
          6f01066e656d6f1a0a0000013719040000 | NotOneName
        no User-Name | \
          010000300f403f9473978057bd83d5cb98f4227a5012c73b13631a4e20ec800a42571663451d1a0a000001\
          3719040000 | NotOneName
        a name that no account has | \
          010000380f403f9473978057bd83d5cb98f4227a50121bae7441c9162945d735bcd67ce1686f01086e6f62\
          6f64791a0a0000013719040000 | UncheckedCredential
        a disabled account | \
          010000360f403f9473978057bd83d5cb98f4227a5012a913edf9c931c1b2eb0ee1aba38379c50106676f6e\
          651a0a0000013719040000 | UncheckedCredential
        two CHAP-Challenges | \
          0100005a0f403f9473978057bd83d5cb98f4227a501299eb7aa134b632180351542d3faa93c301066e656d\
          6f3c12000000000000000000000000000000003c12000000000000000000000000000000001a0a00000137\
          19040000 | UncheckedCredential
    ";
    check_spelled(&rt, &Logins { source: CLIENT }, rows)
}

#[test]
fn other_client_may_pass_them_on(rt: HostRuntime) -> Result<(), Fail> {
    let rows = "
        MS-CHAP2-Response alone | \
          010000360f403f9473978057bd83d5cb98f4227a501227289d815b7cf51a9eb30c8c337f299f01066e656d\
          6f1a0a0000013719040000 | NotOnePassword
        its password and MS-CHAP2-Response | \
          010000480f403f9473978057bd83d5cb98f4227a50121bc213da3b3950a0477b3ede45c9c3ac01066e656d\
          6f0212b704fcbea7ff5ae789237b19c3519ff81a0a0000013719040000 | asks 0
        its password and an EAP-Message | \
          010000410f403f9473978057bd83d5cb98f4227a5012623c6cfa26fdd2ed569ebd867842e73301066e656d\
          6f0212b704fcbea7ff5ae789237b19c3519ff84f0302 | asks 0
        its password and a malformed Vendor-Specific | \
          010000400f403f9473978057bd83d5cb98f4227a5012c8e852d8f784a3bffe5fc48d148d684701066e656d\
          6f0212b704fcbea7ff5ae789237b19c3519ff81a02 | asks 0
    ";
    check_spelled(&rt, &Logins { source: OTHER }, rows)
}

#[test]
fn so_may_any_in_version_2(rt: HostRuntime) -> Result<(), Fail> {
    let rows = "
        its password and MS-CHAP2-Response | auth | \
          010000360f403f9473978057bd83d5cb98f4227a01066e656d6f02120dbe708d93d413ce3196e43f782a0a\
          ee1a0a0000013719040000 | <ask>
        MS-CHAP2-Response alone | auth | \
          010000240f403f9473978057bd83d5cb98f4227a01066e656d6f1a0a0000013719040000 | Reject
        its password and ARAP-Password | auth | \
          0100003e0f403f9473978057bd83d5cb98f4227a01066e656d6f02120dbe708d93d413ce3196e43f782a0a\
          ee461200000000000000000000000000000000 | <ask>
        ARAP-Password alone | auth | \
          0100002c0f403f9473978057bd83d5cb98f4227a01066e656d6f4612000000000000000000000000000000\
          00 | Reject
        its password and Digest-Response | auth | \
          010000320f403f9473978057bd83d5cb98f4227a01066e656d6f02120dbe708d93d413ce3196e43f782a0a\
          ee670636363239 | <ask>
        Digest-Response alone | auth | \
          010000200f403f9473978057bd83d5cb98f4227a01066e656d6f670636363239 | Reject
        its password and a malformed Vendor-Specific | auth | \
          0100002e0f403f9473978057bd83d5cb98f4227a01066e656d6f02120dbe708d93d413ce3196e43f782a0a\
          ee1a02 | <ask>
        a malformed Vendor-Specific alone | auth | \
          0100001c0f403f9473978057bd83d5cb98f4227a01066e656d6f1a02 | Reject
    ";
    check(&rt, CLIENT, rows)
}
