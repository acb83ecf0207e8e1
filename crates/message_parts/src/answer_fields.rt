//! Fields of answers that this profile carries and does not use, by number and name. Definitions cite these tables.

use crate::names::Called;

/// The segments of messages and of the status of an answer, AM20 and AM21.
pub(crate) static MESSAGES: [Called; 11] = [
    ("504-F4", "message", "message"),
    (
        "526-FQ",
        "additional message information",
        "additional_message_information",
    ),
    (
        "130-UF",
        "additional message count",
        "additional_message_count",
    ),
    (
        "132-UH",
        "additional message qualifier",
        "additional_message_qualifier",
    ),
    (
        "131-UG",
        "additional message continuity",
        "additional_message_continuity",
    ),
    (
        "547-5F",
        "approved message code count",
        "approved_message_code_count",
    ),
    ("548-6F", "approved message code", "approved_message_code"),
    (
        "549-7F",
        "help desk phone qualifier",
        "help_desk_phone_qualifier",
    ),
    ("550-8F", "help desk phone number", "help_desk_phone_number"),
    (
        "546-4F",
        "reject field occurrence",
        "reject_field_occurrence",
    ),
    ("987-MA", "URL", "url"),
];

/// The claim segment of an answer, AM22.
pub(crate) static PREFERRED: [Called; 7] = [
    (
        "551-9F",
        "preferred product count",
        "preferred_product_count",
    ),
    (
        "552-AP",
        "preferred product ID qualifier",
        "preferred_product_id_qualifier",
    ),
    ("553-AR", "preferred product ID", "preferred_product_id"),
    (
        "554-AS",
        "preferred product incentive",
        "preferred_product_incentive",
    ),
    (
        "555-AT",
        "product cost share incentive",
        "preferred_product_cost_share_incentive",
    ),
    (
        "556-AU",
        "preferred product description",
        "preferred_product_description",
    ),
    (
        "114-N4",
        "Medicaid subrogation number",
        "medicaid_subrogation_number",
    ),
];

/// The pricing segment of an answer, AM23: what is paid, and by which basis.
pub(crate) static PAID: [Called; 22] = [
    ("557-AV", "tax exempt indicator", "tax_exempt_indicator"),
    (
        "558-AW",
        "flat sales tax paid",
        "flat_sales_tax_amount_paid",
    ),
    (
        "559-AX",
        "percentage sales tax paid",
        "percentage_sales_tax_amount_paid",
    ),
    (
        "560-AY",
        "percentage sales tax rate paid",
        "percentage_sales_tax_rate_paid",
    ),
    (
        "561-AZ",
        "percentage tax basis paid",
        "percentage_sales_tax_basis_paid",
    ),
    (
        "523-FN",
        "attributed to sales tax",
        "attributed_to_sales_tax",
    ),
    (
        "575-EQ",
        "patient sales tax amount",
        "patient_sales_tax_amount",
    ),
    ("574-2Y", "plan sales tax amount", "plan_sales_tax_amount"),
    ("521-FL", "incentive amount paid", "incentive_amount_paid"),
    (
        "562-J1",
        "professional service fee paid",
        "professional_service_fee_paid",
    ),
    (
        "563-J2",
        "other amount paid count",
        "other_amount_paid_count",
    ),
    (
        "564-J3",
        "other amount paid qualifier",
        "other_amount_paid_qualifier",
    ),
    ("565-J4", "other amount paid", "other_amount_paid"),
    (
        "566-J5",
        "other payer amount recognized",
        "other_payer_amount_recognized",
    ),
    ("522-FM", "basis of reimbursement", "basis_of_reimbursement"),
    (
        "346-HH",
        "basis of dispensing fee",
        "basis_of_calculation_dispensing_fee",
    ),
    ("347-HJ", "basis of copay", "basis_of_calculation_copay"),
    (
        "348-HK",
        "basis of flat sales tax",
        "basis_of_calculation_flat_sales_tax",
    ),
    (
        "349-HM",
        "basis of percentage sales tax",
        "basis_of_calculation_percentage_sales_tax",
    ),
    (
        "573-4V",
        "basis of coinsurance",
        "basis_of_calculation_coinsurance",
    ),
    (
        "148-U8",
        "ingredient cost contracted",
        "ingredient_cost_contracted_amount",
    ),
    (
        "149-U9",
        "dispensing fee contracted",
        "dispensing_fee_contracted_amount",
    ),
];

/// The pricing segment of an answer, AM23: the patient's part and the plan's limits.
pub(crate) static SHARED: [Called; 16] = [
    ("518-FI", "amount of copay", "amount_of_copay"),
    ("572-4U", "amount of coinsurance", "amount_of_coinsurance"),
    (
        "517-FH",
        "applied to periodic deductible",
        "applied_to_periodic_deductible",
    ),
    (
        "512-FC",
        "accumulated deductible amount",
        "accumulated_deductible_amount",
    ),
    (
        "513-FD",
        "remaining deductible amount",
        "remaining_deductible_amount",
    ),
    (
        "514-FE",
        "remaining benefit amount",
        "remaining_benefit_amount",
    ),
    (
        "520-FK",
        "exceeding benefit maximum",
        "amount_exceeding_periodic_benefit_maximum",
    ),
    (
        "571-NZ",
        "attributed to processor fee",
        "attributed_to_processor_fee",
    ),
    (
        "133-UJ",
        "attributed to network",
        "attributed_to_provider_network_selection",
    ),
    (
        "134-UK",
        "attributed to brand drug",
        "attributed_to_product_selection_brand_drug",
    ),
    (
        "135-UM",
        "attributed to formulary",
        "attributed_to_product_selection_non_preferred_formulary",
    ),
    (
        "136-UN",
        "attributed to brand formulary",
        "attributed_to_product_selection_brand_non_preferred_formulary",
    ),
    (
        "137-UP",
        "attributed to coverage gap",
        "attributed_to_coverage_gap",
    ),
    (
        "577-G3",
        "estimated generic savings",
        "estimated_generic_savings",
    ),
    (
        "128-UC",
        "spending account remaining",
        "spending_account_amount_remaining",
    ),
    (
        "129-UD",
        "health plan assistance amount",
        "health_plan_funded_assistance_amount",
    ),
];

/// The segment of drug use review of an answer, AM24.
pub(crate) static REVIEWED: [Called; 9] = [
    (
        "567-J6",
        "review response code counter",
        "drug_use_review_response_code_counter",
    ),
    (
        "528-FS",
        "clinical significance code",
        "clinical_significance_code",
    ),
    (
        "529-FT",
        "other pharmacy indicator",
        "other_pharmacy_indicator",
    ),
    ("530-FU", "previous date of fill", "previous_date_of_fill"),
    (
        "531-FV",
        "quantity of previous fill",
        "quantity_of_previous_fill",
    ),
    ("532-FW", "database indicator", "database_indicator"),
    (
        "533-FX",
        "other prescriber indicator",
        "other_prescriber_indicator",
    ),
    (
        "544-FY",
        "drug use review free text",
        "drug_use_review_free_text",
    ),
    (
        "570-NS",
        "drug use review more text",
        "drug_use_review_additional_text",
    ),
];

/// The segments of an answer that name insurers, AM25 and AM28.
pub(crate) static INSURERS: [Called; 12] = [
    (
        "545-2F",
        "network reimbursement ID",
        "network_reimbursement_id",
    ),
    ("568-J7", "payer ID qualifier", "payer_id_qualifier"),
    ("569-J8", "payer ID", "payer_id"),
    ("355-NT", "other payer ID count", "other_payer_id_count"),
    (
        "991-MH",
        "other payer control number",
        "other_payer_processor_control_number",
    ),
    (
        "356-NU",
        "other payer cardholder ID",
        "other_payer_cardholder_id",
    ),
    ("992-MJ", "other payer group ID", "other_payer_group_id"),
    (
        "142-UV",
        "other payer person code",
        "other_payer_person_code",
    ),
    (
        "127-UB",
        "other payer help desk number",
        "other_payer_help_desk_phone_number",
    ),
    (
        "143-UW",
        "other payer relationship code",
        "other_payer_patient_relationship_code",
    ),
    (
        "144-UX",
        "other payer effective date",
        "other_payer_benefit_effective_date",
    ),
    (
        "145-UY",
        "other payer termination date",
        "other_payer_benefit_termination_date",
    ),
];
